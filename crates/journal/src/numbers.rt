//! Lists of message numbers.

ghost use Rattle.std.specs.Prelude.{◌≡◌, [], ◌∷◌, ◌++◌, IfOk, IfErr, OnOk, OnErr};
ghost use Rattle.message.specs.declared.fault.Fault.TheVariants.{OutOfMemory};

use message::Fault;
use std::alloc::Global;
use std::marker::Model;

/// A list of message numbers, as a line of the journal has them. Contracts see the list.
#[derive(Debug, Drop)]
pub struct Numbers {
    numbers: Vec<u64>,
}

impl Model for Numbers {
    ghost use Rattle.std.specs.Prelude.{ℕ, List};

    ghost Value = { List ℕ };

    ghost view = { λ n. n.numbers.items };
}

impl Numbers {
    /// The empty list, which takes no memory.
    pub fn new(alloc: Global) -> Numbers
        ensures { result ≡ [] }
    {
        Numbers {
            numbers: Vec::new(alloc),
        }
    }

    /// Adds a number at the end. `OutOfMemory` is the only refusal; the list is then as it was.
    pub fn push(&mut self, _alloc: Global, number: u64) -> Result<(), Fault>
        ensures ok { OnOk result (self.new ≡ self.old ++ number ∷ []) }
        ensures err { OnErr result (self.new ≡ self.old) }
        ensures errors { IfErr result (λ fault. fault ≡ OutOfMemory) }
    {
        self.numbers.push(number)?;
        Ok(())
    }

    /// A list of the same numbers. `OutOfMemory` is the only refusal.
    pub(crate) fn copied(&self, alloc: Global) -> Result<Numbers, Fault>
        ensures ok { IfOk result (λ copy. copy ≡ self.now) }
        ensures errors { IfErr result (λ fault. fault ≡ OutOfMemory) }
    {
        let numbers = Vec::from_slice(alloc, self.as_slice())?;
        Ok(Numbers { numbers })
    }

    /// The numbers.
    pub fn as_slice(&self) -> &[u64]
        ensures { result.now ≡ self.now }
    {
        self.numbers.as_slice()
    }
}
