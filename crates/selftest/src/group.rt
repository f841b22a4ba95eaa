// Groups of cases: every case is counted, and one that fails is printed with what was found.
use crate::failure::Failure;
use std::alloc::Global;
use std::fmt::{Debug, Display};
use std::io;

#[derive(Drop)]
pub struct Group<'a> {
    rt: &'a HostRuntime,
    name: &'a str,
    cases: u32,
    passed: u32,
}

// Runs a group, and prints how many of its cases passed. What keeps it from going on is a case that fails.
pub(crate) fn run<'a, F: FnOnce(&mut Group<'a>) -> Result<(), Failure>>(
    rt: &'a HostRuntime,
    name: &'a str,
    check: F,
) -> io::Result<()>
    requires { F.IsAlwaysCallable check }
{
    let mut group = Group {
        rt,
        name,
        cases: 0,
        passed: 0,
    };
    let res = check(&mut group);
    if res.is_err() {
        group.passes("what follows", res);
    }
    let passed = group.passed;
    let cases = group.cases;
    println!(rt; "{name}: {passed} of {cases}")
}

impl Group<'_> {
    pub fn heap(&self) -> Global {
        self.rt.alloc()
    }

    // A case that passes if what was found is what was wanted. One that fails counts even if it cannot be printed.
    pub fn equal<T: PartialEq + Debug + Drop>(
        &mut self,
        case: impl Display + Drop,
        found: T,
        wanted: T,
    ) {
        self.cases = self.cases.saturating_add(1);
        if found == wanted {
            self.passed = self.passed.saturating_add(1);
        } else {
            let name = self.name;
            let both = (found, wanted);
            let _ = println!(self.rt; "{name}, {case}: found and wanted {both:?}");
        }
    }

    // A case that passes if nothing failed in it.
    pub fn passes(&mut self, case: impl Display + Drop, res: Result<(), Failure>) {
        self.equal(case, res, Ok(()));
    }
}
