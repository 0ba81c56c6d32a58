ghost use Rattle.std.specs.Prelude.{◌≡◌, length};

use mdf_order::Serials;
use std::alloc::Global;
use std::process::Abort;
use std::test::Fail;

/// Serials beside a plain list of which of them are in.
#[derive(Drop)]
struct Both {
    serials: Serials,
    marks: [bool; 300],
    ghost as_many: { length serials ≡ 300 },
}

impl Both {
    fn new(rt: &impl Abort, alloc: Global) -> Result<Both, Fail> {
        let mut serials = Serials::new(alloc);
        for serial in 0..300 {
            assert_eq!(rt; serials.add()?, serial);
        }
        Ok(Both {
            serials,
            marks: [false; 300],
        })
    }

    /// From the first on, serials at this distance come in, or go.
    fn set(&mut self, first: usize, distance: usize, is_in: bool) {
        for serial in first..300 {
            if (serial - first).checked_rem(distance) == Some(0) {
                self.marks[serial] = is_in;
                if is_in {
                    self.serials.insert(serial as u32);
                } else {
                    self.serials.remove(serial as u32);
                }
            }
        }
    }

    fn assert_alike(&self, rt: &impl Abort) {
        let mut place = 0;
        for serial in 0..300 {
            let is_in = self.marks[serial as usize];
            assert_eq!(rt; self.serials.contains(serial), is_in);
            if is_in {
                assert_eq!(rt; self.serials.nth(place), Some(serial));
                place += 1;
            }
        }
        assert_eq!(rt; self.serials.len(), place);
        assert_eq!(rt; self.serials.nth(place), None);
    }
}

#[test]
fn serials_are_those_of_a_plain_list(rt: HostRuntime) -> Result<(), Fail> {
    let mut both = Both::new(&rt, rt.alloc())?;
    both.assert_alike(&rt);
    for (first, distance, is_in) in [
        (0, 3, true),
        (5, 7, true),
        (0, 9, false),
        (256, 1, true),
        (100, 1, false),
        (299, 1, true),
    ] {
        both.set(first, distance, is_in);
        both.assert_alike(&rt);
    }
    Ok(())
}

#[test]
fn newest_serial_is_withdrawn(rt: HostRuntime) -> Result<(), Fail> {
    let mut serials = Serials::new(rt.alloc());
    let first = serials.add()?;
    let second = serials.add()?;
    serials.insert(first);
    serials.insert(second);
    serials.withdraw();
    assert_eq!(rt; serials.total(), 1);
    assert_eq!(rt; serials.len(), 1);
    assert_eq!(rt; serials.nth(0), Some(first));
    Ok(())
}
