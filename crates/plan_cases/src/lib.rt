// Plans for matrices of many shapes, with both engines.
#![tactic(auto)]

ghost use Rattle.plan_cases.specs.Worked.{Worked};

use matching::Engine;

// What holds of every plan that an engine makes for a few small matrices.
pub fn worked_plans<E: Engine>()
    ensures { Worked E.Engine.may }
{}

#[cfg(test)]
mod tests {
    use kuhn::Kuhn;
    use layered::Layered;
    use lines::{Downlink, Uplink};
    use matching::Engine;
    use owed::{LIMIT, Owed};
    use padding::pad;
    use planning::{Plan, PlanDecline, make_plan};
    use schedule::keeps_rules;
    use std::alloc::Global;
    use std::process::Abort;
    use std::test::Fail;

    const SIZES: [u16; 4] = [1, 3, 6, 16];

    // How many numbers of the padded matrix are above zero.
    fn positives(owed: &Owed) -> usize {
        pad(owed)
            .iter()
            .flatten()
            .filter(|number| **number > 0)
            .count()
    }

    // The units that a plan grants at a crosspoint.
    fn granted(plan: &Plan, up: Uplink, down: Downlink) -> u32 {
        // a fold, since no proof was found that a plain sum fits
        plan.modes().iter().fold(0, |units: u32, mode| {
            units.saturating_add(u32::from(mode.units_to(up, down)))
        })
    }

    // A plan keeps the rules, serves exactly what is owed and is as long as the busiest line.
    fn check_plan(rt: &impl Abort, plan: &Plan, owed: &Owed) {
        assert_eq!(rt; plan.length(), owed.busiest());
        assert!(rt;
            plan.count()
                <= positives(owed)
                    .saturating_sub(owed.lines())
                    .saturating_add(1)
        );
        assert!(rt;
            plan.modes()
                .iter()
                .all(|mode| keeps_rules(owed.lines(), mode))
        );
        for i in 0..16 {
            for j in 0..16 {
                if let Ok(units) = owed.units(Uplink(i), Downlink(j)) {
                    assert_eq!(rt; granted(plan, Uplink(i), Downlink(j)), units);
                }
            }
        }
    }

    // An engine's plan, checked, has so many modes at most.
    fn check_with<E: Engine>(
        rt: &impl Abort,
        heap: Global,
        engine: &E,
        owed: &Owed,
        most: usize,
    ) -> Result<(), Fail> {
        let plan = make_plan(heap, engine, owed)?;
        check_plan(rt, &plan, owed);
        assert!(rt; plan.count() <= most);
        Ok(())
    }

    fn check_engines(rt: &impl Abort, heap: Global, owed: &Owed, most: usize) -> Result<(), Fail> {
        check_with(rt, heap, &Kuhn, owed, most)?;
        check_with(rt, heap, &Layered, owed, most)
    }

    #[test]
    fn one_cell(rt: HostRuntime) -> Result<(), Fail> {
        for n in SIZES {
            let mut owed = Owed::new(usize::from(n))?;
            owed.add(Uplink(0), Downlink(n - 1), LIMIT)?;
            check_engines(&rt, rt.alloc(), &owed, 1)?;
        }
        Ok(())
    }

    #[test]
    fn a_permutation(rt: HostRuntime) -> Result<(), Fail> {
        for n in SIZES {
            let mut owed = Owed::new(usize::from(n))?;
            for i in 0..n {
                owed.add(Uplink(i), Downlink(n - 1 - i), 5)?;
            }
            check_engines(&rt, rt.alloc(), &owed, 1)?;
        }
        Ok(())
    }

    // Each crosspoint has some units, no two of a line as many.
    #[test]
    fn a_full_matrix(rt: HostRuntime) -> Result<(), Fail> {
        for n in SIZES {
            let mut owed = Owed::new(usize::from(n))?;
            for i in 0..n {
                for j in 0..n {
                    let units = (u32::from(i) * 397 + u32::from(j) * 1009) % 4001;
                    owed.add(Uplink(i), Downlink(j), units + 1)?;
                }
            }
            check_engines(&rt, rt.alloc(), &owed, 241)?;
        }
        Ok(())
    }

    // Of each three lines, a largest matching of the units alone can be that of uplinks 1 and 2, which idles uplink 0, and then two slots do not do.
    #[test]
    fn a_busiest_line_is_never_idle(rt: HostRuntime) -> Result<(), Fail> {
        for n in [3, 6, 16] {
            let mut owed = Owed::new(usize::from(n))?;
            for block in 0..n / 3 {
                let first = block * 3;
                owed.add(Uplink(first), Downlink(first), 1)?;
                owed.add(Uplink(first), Downlink(first + 1), 1)?;
                owed.add(Uplink(first + 1), Downlink(first), 1)?;
                owed.add(Uplink(first + 2), Downlink(first + 1), 1)?;
            }
            assert_eq!(rt; owed.busiest(), 2);
            check_engines(&rt, rt.alloc(), &owed, 2)?;
        }
        Ok(())
    }

    // Rows 2 1 0, 0 1 2, 1 0 0.
    #[test]
    fn three_lines(rt: HostRuntime) -> Result<(), Fail> {
        let mut owed = Owed::new(3)?;
        for (i, j, units) in [(0, 0, 2), (0, 1, 1), (1, 1, 1), (1, 2, 2), (2, 0, 1)] {
            owed.add(Uplink(i), Downlink(j), units)?;
        }
        check_engines(&rt, rt.alloc(), &owed, 5)?;
        let plan = make_plan(rt.alloc(), &Kuhn, &owed)?;
        assert_eq!(rt; plan.count(), 3);
        assert_eq!(rt; plan.length(), 3);
        Ok(())
    }

    #[test]
    fn nothing_owed(rt: HostRuntime) -> Result<(), Fail> {
        let owed = Owed::new(3)?;
        let plan = make_plan(rt.alloc(), &Kuhn, &owed);
        assert_eq!(rt; plan.err(), Some(PlanDecline::NothingOwed));
        Ok(())
    }
}
