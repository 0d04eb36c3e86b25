//! Which calls of a source or a sink are to fail, and how many did.

ghost use Rattle.std.specs.Prelude.{◌≡◌, ◌≤◌, ◌↔◌, IsTrue};
ghost use Rattle.byte_ports.specs.Parts.{FailsNext, unused, called};
ghost use Rattle.byte_ports.specs.Ports.{raised};

use std::marker::Model;

#[derive(Drop)]
pub(crate) struct Plan {
    failing: Vec<u64>,
    calls: u64,
    faults: u64,
}

impl Model for Plan {
    ghost use Rattle.byte_ports.specs.Parts.{PlanParts};

    ghost Value = { PlanParts };

    ghost view = { λ p. record { failing = p.failing.items; calls = p.calls; faults = p.faults } };
}

impl Plan {
    /// The calls of these numbers are to fail, and none was made.
    pub(crate) fn new(failing: Vec<u64>) -> Plan
        ensures { result ≡ unused failing.items }
    {
        Plan {
            failing,
            calls: 0,
            faults: 0,
        }
    }

    /// Counts one more call, and tells whether it is to fail.
    pub(crate) fn next_fails(&mut self) -> bool
        ensures fails { IsTrue result ↔ FailsNext self.old }
        ensures counts { self.new ≡ called self.old }
    {
        self.calls = self.calls.saturating_add(1);
        self.failing.contains(&self.calls)
    }

    /// Counts one more failed call.
    pub(crate) fn raise(&mut self)
        ensures counts { self.new ≡ record self.old { faults = raised self.old.faults } }
        ensures later { self.old.faults ≤ self.new.faults }
    {
        self.faults = self.faults.saturating_add(1);
    }
}
