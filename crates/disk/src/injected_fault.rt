//! Injected faults, by which a test lets calls of a device in memory fail, and the count of all calls.
ghost use Rattle.std.specs.Prelude.{◌≡◌, ◌+◌, ◌-◌, ◌^◌, min};
ghost use Rattle.disk.specs.declared.injected_fault.InjectedFault.TheVariants.{Off};

#[derive(Clone, Copy, Debug)]
pub(crate) enum InjectedFault {
    Off,
    /// The n-th call, counted from now, fails; later ones succeed.
    FailAt(u64),
    /// The n-th call, counted from now, fails, and so do all later ones.
    StopAt(u64),
}

#[derive(Clone, Copy, Debug)]
pub(crate) struct CallCounter {
    pub(crate) injected_fault: InjectedFault,
    pub(crate) calls: u64,
}

impl CallCounter {
    ghost use Rattle.disk.specs.InjectedFault.{fails_next, counted_down};

    pub(crate) fn new() -> CallCounter
        ensures { result ≡ record { injected_fault = Off; calls = 0 } }
    {
        CallCounter {
            injected_fault: InjectedFault::Off,
            calls: 0,
        }
    }

    /// Counts a call, and returns whether it is to fail.
    pub(crate) fn count_call(&mut self) -> bool
        ensures fails { result ≡ fails_next self.old.injected_fault }
        ensures after { self.new
            ≡ record { injected_fault = counted_down self.old.injected_fault; calls = min (self.old.calls + 1) (2 ^ 64 - 1) } }
    {
        self.calls = self.calls.saturating_add(1);
        match self.injected_fault {
            InjectedFault::Off => false,
            InjectedFault::FailAt(n) if n <= 1 => {
                self.injected_fault = InjectedFault::Off;
                true
            }
            InjectedFault::FailAt(n) => {
                self.injected_fault = InjectedFault::FailAt(n - 1);
                false
            }
            InjectedFault::StopAt(n) if n <= 1 => true,
            InjectedFault::StopAt(n) => {
                self.injected_fault = InjectedFault::StopAt(n - 1);
                false
            }
        }
    }
}
