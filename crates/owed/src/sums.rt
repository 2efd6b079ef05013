// Rows of units: their sums, and a write.
ghost use Rattle.std.specs.Prelude.{◌≡◌, ℕ, ◌^◌, ◌<◌, sum, sum_by, slice_index, ◌≢◌};
ghost use Rattle.lines.specs.Matrix.{cells};

// The units of a row.
pub(super) fn row_sum(row: &[u32; 16]) -> u32
    requires { sum row.now < 2 ^ 32 }
    ensures { result ≡ sum row.now }
{
    row.iter().sum()
}

// The units of column j.
pub(super) fn column_sum(rows: &[[u32; 16]; 16], j: usize) -> u32
    requires inside { j < 16 }
    requires small { sum_by (λ row. slice_index row j) rows.now < 2 ^ 32 }
    ensures { result ≡ sum_by (λ row. slice_index row j) rows.now }
{
    rows.iter().map(|row| row[j]).sum()
}

// Puts the units u at place j of a row. A row that is lent is known to have sixteen places, and one within rows is not.
pub(super) fn put(row: &mut [u32; 16], j: usize, u: u32)
    requires { j < 16 }
    ensures here { slice_index row.new j ≡ u }
    ensures others { (k : ℕ) → (k ≢ j) → slice_index row.new k ≡ slice_index row.old k }
{
    row[j] = u;
}

// Rows of zeros.
pub(super) fn no_units() -> [[u32; 16]; 16]
    ensures { (a b : ℕ) → cells result a b ≡ 0 }
{
    [[0; 16]; 16]
}
