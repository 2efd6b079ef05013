// What a telemetry switch reads: a file whose records say what each mode carried.
#[derive(Clone, Copy)]
pub struct Report<'a> {
    pub(super) file: &'a [u8],
}
