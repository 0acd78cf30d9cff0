ghost use Rattle.std.specs.Prelude.{◌≡◌, ◌↔◌, ℕ, ◌≤◌, List, [], OnOk, IsErrOf, IsTrue, Option, Some};
ghost use Rattle.outside.specs.Faults.{Rose};
ghost use Rattle.outside.specs.Said.{Says, SaysInPart};
ghost use Rattle.outside.specs.Calls.{no_calls, next_fails};
ghost use Rattle.outside.specs.MemorySaid.{MemoryText, after_say};

use crate::calls::Calls;
use crate::failed::Failed;
use crate::said::Said;
use std::alloc::Global;
use std::marker::Model;

/// An output in memory, which tells what was said. Chosen says fail, counted from 1, and add nothing.
#[derive(Drop)]
pub struct MemorySaid {
    text: Vec<u8>,
    says: Calls,
}

impl Model for MemorySaid {
    ghost use Rattle.outside.specs.MemorySaid.{MemoryText, memory_text_code};

    ghost Value = { MemoryText };

    ghost coded = { memory_text_code };

    ghost view = { λ s. record { text = s.text.items; says = s.says } };
}

impl MemorySaid {
    /// Nothing said. The says with these numbers fail.
    pub fn new(alloc: Global, fail_says: Vec<u64>) -> MemorySaid
        ensures text { result.text ≡ [] }
        ensures says { result.says ≡ no_calls fail_says.items }
    {
        MemorySaid {
            text: Vec::new(alloc),
            says: Calls::new(fail_says),
        }
    }

    /// All that was said.
    pub fn bytes(&self) -> &[u8]
        ensures value { result.now ≡ self.now.text }
    {
        self.text.as_slice()
    }
}

impl Said for MemorySaid {
    ghost said = { λ s. Some s.text };

    ghost faults = { λ s. s.says.faults };

    fn say(&mut self, bytes: &[u8]) -> Result<(), Failed>
        ensures ok { OnOk result (Says bytes.now (Some self.old.text) (Some self.new.text)) }
        ensures fault { IsErrOf result Failed.Fault → SaysInPart bytes.now (Some self.old.text) (Some self.new.text) }
        ensures memory { IsErrOf result Failed.Memory → Some self.new.text ≡ Some self.old.text }

        ensures cause { IsErrOf result Failed.Fault → Rose self.old.says.faults self.new.says.faults }
        ensures never_falls { self.old.says.faults ≤ self.new.says.faults }

        ensures exact { IsErrOf result Failed.Fault ↔ IsTrue (next_fails self.old.says) }
        ensures after { self.new ≡ after_say bytes.now result self.old }
    {
        if self.says.start() {
            self.says.fail();
            return Err(Failed::Fault);
        }
        self.text.extend_from_slice(bytes)?;
        Ok(())
    }
}
