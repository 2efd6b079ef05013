// Both engines on worked cases, and side by side on many supports.
#![tactic(auto)]

#[cfg(test)]
mod tests {
    use kuhn::Kuhn;
    use layered::Layered;
    use lines::{
        Decline, Downlink, Place, has_line, is_empty, lines_below, set_size, united, with_line,
        without,
    };
    use matching::{Engine, EngineAnswer, letter_of};
    use std::array;
    use std::process::Abort;
    use std::test::Fail;

    // The first rows, and empty ones after them.
    fn support(first: &[u16]) -> [u16; 16] {
        array::from_fn(|up| first.get(up).copied().unwrap_or(0))
    }

    // Each uplink has a downlink of its row, all different, and there is none in the places after them.
    fn is_matching(n: usize, rows: &[u16; 16], mates: &[Downlink; 16]) -> bool {
        let mut used = 0;
        for (up, (row, mate)) in rows.iter().zip(mates).enumerate() {
            let down = usize::from(mate.0);
            if up >= n {
                if down != 255 {
                    return false;
                }
            } else if down >= n || !has_line(*row, down) || has_line(used, down) {
                return false;
            } else {
                used = with_line(used, down);
            }
        }
        true
    }

    // The rows of the set, all of uplinks below n, hold fewer downlinks below n than it has uplinks.
    fn is_witness(n: usize, rows: &[u16; 16], set: u16) -> bool {
        let downs = rows
            .iter()
            .enumerate()
            .filter(|(up, _)| has_line(set, *up))
            .fold(0, |downs, (_, row)| united(downs, *row));
        is_empty(without(set, lines_below(n))) && set_size(downs & lines_below(n)) < set_size(set)
    }

    // Whether the engine finds a matching; what it finds is looked at.
    fn matched<E: Engine>(
        rt: &impl Abort,
        engine: &E,
        n: usize,
        rows: [u16; 16],
    ) -> Result<bool, Fail> {
        match engine.find(n, rows)? {
            EngineAnswer::Matching(mates) => {
                assert!(rt; is_matching(n, &rows, &mates));
                Ok(true)
            }
            EngineAnswer::Witness(set) => {
                assert!(rt; is_witness(n, &rows, set));
                Ok(false)
            }
        }
    }

    fn both_matched(rt: &impl Abort, n: usize, rows: [u16; 16]) -> Result<bool, Fail> {
        let by_paths = matched(rt, &Kuhn, n, rows)?;
        assert_eq!(rt; matched(rt, &Layered, n, rows)?, by_paths);
        Ok(by_paths)
    }

    fn gives<E: Engine>(
        rt: &impl Abort,
        engine: &E,
        rows: &[u16],
        mates: &[u16],
    ) -> Result<(), Fail> {
        let expected = array::from_fn(|up| Downlink(mates.get(up).copied().unwrap_or(255)));
        assert_eq!(rt;
            engine.find(rows.len(), support(rows))?,
            EngineAnswer::Matching(expected)
        );
        Ok(())
    }

    fn blocked<E: Engine>(rt: &impl Abort, engine: &E, rows: &[u16], set: u16) -> Result<(), Fail> {
        assert_eq!(rt;
            engine.find(rows.len(), support(rows))?,
            EngineAnswer::Witness(set)
        );
        Ok(())
    }

    // Two uplinks that have only downlink 0 between them are the only witness.
    #[test]
    fn two_of_one(rt: HostRuntime) -> Result<(), Fail> {
        blocked(&rt, &Kuhn, &[1, 1, 7], 3)?;
        blocked(&rt, &Layered, &[1, 1, 7], 3)
    }

    // The order of Kuhn's search decides which matching is found.
    #[test]
    fn kuhns_order(rt: HostRuntime) -> Result<(), Fail> {
        gives(&rt, &Kuhn, &[3, 6, 7], &[1, 2, 0])?;
        gives(&rt, &Kuhn, &[7, 7, 7], &[2, 1, 0])?;
        gives(&rt, &Kuhn, &[3, 5, 9, 14], &[0, 2, 3, 1])?;
        gives(&rt, &Kuhn, &[12, 6, 3, 9], &[3, 2, 1, 0])?;
        gives(&rt, &Kuhn, &[3, 6, 12, 24, 17], &[1, 2, 3, 4, 0])?;
        gives(&rt, &Kuhn, &[20, 9, 22, 9, 13], &[4, 3, 1, 0, 2])?;
        gives(&rt, &Kuhn, &[45, 4, 24, 6, 62, 7], &[3, 2, 4, 1, 5, 0])?;
        gives(&rt, &Kuhn, &[23, 40, 38, 40, 10, 1], &[4, 5, 2, 3, 1, 0])
    }

    #[test]
    fn kuhns_order_with_eight(rt: HostRuntime) -> Result<(), Fail> {
        gives(
            &rt,
            &Kuhn,
            &[33, 129, 95, 4, 156, 94, 10, 11],
            &[5, 7, 1, 2, 4, 6, 3, 0],
        )?;
        gives(
            &rt,
            &Kuhn,
            &[48, 127, 10, 216, 40, 192, 38, 11],
            &[4, 1, 3, 6, 5, 7, 2, 0],
        )?;
        gives(
            &rt,
            &Kuhn,
            &[65535; 16],
            &[15, 14, 13, 12, 11, 10, 9, 8, 7, 6, 5, 4, 3, 2, 1, 0],
        )
    }

    fn full() -> [u16; 16] {
        [65535; 16]
    }

    fn empty() -> [u16; 16] {
        [0; 16]
    }

    // The diagonal, turned by some lines: one downlink in each row, all different.
    fn single(n: usize, shift: usize) -> [u16; 16] {
        array::from_fn(|up| {
            if up < n {
                with_line(0, up.wrapping_add(shift) % n)
            } else {
                0
            }
        })
    }

    fn shapes(rt: &impl Abort, n: usize) -> Result<(), Fail> {
        assert!(rt; both_matched(rt, n, full())?);
        assert!(rt; !both_matched(rt, n, empty())?);
        assert!(rt; both_matched(rt, n, single(n, 0))?);
        assert!(rt; both_matched(rt, n, single(n, 1))?);
        assert!(rt; both_matched(rt, n, single(n, n / 2))?);
        Ok(())
    }

    #[test]
    fn shapes_of_few_lines(rt: HostRuntime) -> Result<(), Fail> {
        shapes(&rt, 1)?;
        shapes(&rt, 2)
    }

    #[test]
    fn shapes_of_many_lines(rt: HostRuntime) -> Result<(), Fail> {
        shapes(&rt, 15)?;
        shapes(&rt, 16)
    }

    // One uplink that has no downlink is a witness by itself.
    #[test]
    fn one_without_any(rt: HostRuntime) -> Result<(), Fail> {
        blocked(&rt, &Kuhn, &[3, 0, 7], 2)?;
        blocked(&rt, &Layered, &[3, 0, 7], 2)?;
        blocked(&rt, &Kuhn, &[6, 6, 6, 15], 7)?;
        blocked(&rt, &Layered, &[6, 6, 6, 15], 7)
    }

    // A generator of bits; the upper ones are used.
    fn next(state: u64) -> u64 {
        state
            .wrapping_mul(6364136223846793005)
            .wrapping_add(1442695040888963407)
    }

    fn bits(state: u64) -> u16 {
        // sixteen bits are left
        (state >> 40 & 65535) as u16
    }

    // A row, the fuller the greater `fullness` is.
    fn row_of(a: u16, b: u16, c: u16, fullness: usize) -> u16 {
        match fullness {
            0 => a & b & c,
            1 => a & b,
            2 => a & (b | c),
            _ => a,
        }
    }

    // Fills the rows from the generator and answers its state.
    fn fill(state: u64, fullness: usize, rows: &mut [u16; 16]) -> u64 {
        let mut last = state;
        for row in rows.iter_mut() {
            let a = next(last);
            let b = next(a);
            last = next(b);
            *row = row_of(bits(a), bits(b), bits(last), fullness);
        }
        last
    }

    // Folds what Kuhn's engine finds into a number.
    fn fold(sum: u32, n: usize, rows: [u16; 16]) -> Result<u32, Fail> {
        match Kuhn.find(n, rows)? {
            EngineAnswer::Matching(mates) => Ok(
                mates.iter().take(n).fold(sum, |sum, mate| {
                    sum.wrapping_mul(31)
                        .wrapping_add(u32::from(mate.0))
                        .wrapping_add(1)
                        % 65521
                }),
            ),
            EngineAnswer::Witness(_) => Ok(sum),
        }
    }

    // On 128 supports of 1 to 16 lines, from thin to full, the engines agree on which of the two there is. How many have a matching, and which one Kuhn's engine finds, was computed by another program.
    #[test]
    fn many_supports(rt: HostRuntime) -> Result<(), Fail> {
        let mut state: u64 = 2024;
        let mut some: u32 = 0;
        let mut sum: u32 = 0;
        let mut rows = [0; 16];
        for case in 0..128usize {
            state = fill(state, case / 16 % 4, &mut rows);
            let n = case % 16 + 1;
            if both_matched(&rt, n, rows)? {
                some = some.wrapping_add(1);
            }
            sum = fold(sum, n, rows)?;
        }
        assert_eq!(rt; some, 58);
        assert_eq!(rt; sum, 35543);
        Ok(())
    }

    // The rows with what may stand beyond n lines.
    fn with_junk(n: usize, junk: u16, rows: &[u16; 16]) -> [u16; 16] {
        let beyond = without(junk, lines_below(n));
        array::from_fn(|up| {
            if up < n {
                united(rows[up], beyond)
            } else {
                junk
            }
        })
    }

    // Rows and bits from n up change nothing.
    #[test]
    fn junk_beyond(rt: HostRuntime) -> Result<(), Fail> {
        let mut state: u64 = 7;
        let mut rows = [0; 16];
        for case in 0..48usize {
            state = fill(state, 1 + case / 16, &mut rows);
            let n = case % 16 + 1;
            let by_paths = Kuhn.find(n, rows)?;
            let by_layers = Layered.find(n, rows)?;
            let more = with_junk(n, bits(next(state)), &rows);
            assert_eq!(rt; Kuhn.find(n, more)?, by_paths);
            assert_eq!(rt; Layered.find(n, more)?, by_layers);
        }
        Ok(())
    }

    fn declined<E: Engine>(rt: &impl Abort, engine: &E, n: usize) {
        let e = engine
            .find(n, full())
            .expect_err(rt, "an answer for lines outside 1 to 16");
        assert_eq!(rt; e.number(), 1);
        assert_eq!(rt; e.place(), Place::Nowhere);
    }

    #[test]
    fn lines_outside(rt: HostRuntime) {
        declined(&rt, &Kuhn, 0);
        declined(&rt, &Kuhn, 17);
        declined(&rt, &Layered, 0);
        declined(&rt, &Layered, 17);
    }

    #[test]
    fn letters(rt: HostRuntime) {
        assert_eq!(rt; letter_of::<Kuhn>(), 'K');
        assert_eq!(rt; letter_of::<Layered>(), 'H');
    }

    #[test]
    fn whether_there_is_a_matching(rt: HostRuntime) -> Result<(), Fail> {
        assert!(rt; kuhn::has_matching(3, support(&[3, 6, 7]))?);
        assert!(rt; !kuhn::has_matching(3, support(&[1, 1, 7]))?);
        assert!(rt; kuhn::has_matching(17, full()).is_err());
        Ok(())
    }
}
