// A class made ready for many elements.
ghost use Rattle.std.specs.Prelude.{◌≡◌, ◌<◌, ℕ, IfOk, get_or, false};
ghost use Rattle.cd_meaning.specs.Classes.{is_in_class};

use crate::class::is_in;
use cd_elem::{Class, NoMemory};
use std::alloc::Global;
use std::marker::Model;

/// A class with its answers to the numbers below 256, which are looked up. Contracts see the class.
#[derive(Drop)]
pub struct ClassTable {
    class: Class,
    answers: Box<[bool; 256]>,
}

impl Model for ClassTable {
    ghost use Rattle.cd_elem.specs.declared.word.Class.{Class};
    ghost use Rattle.cd_elemwise.specs.Tables.{IsTable};

    ghost Value = { Class };

    ghost view = { λ table. table.class };

    ghost invariant = { λ table. IsTable table.class table.answers.value };
}

/// The answers of the class to the numbers below 256, in their order.
fn answers_of(class: Class) -> [bool; 256]
    ensures { (k : ℕ) → k < 256 → get_or result k false ≡ is_in_class class k }
{
    let mut answers = [false; 256];
    for number in 0..256 {
        answers[number] = is_in(class, number as u32);
    }
    answers
}

impl ClassTable {
    pub fn new(alloc: Global, class: Class) -> Result<ClassTable, NoMemory>
        ensures { IfOk result (λ table. table ≡ class) }
    {
        let answers = Box::new(alloc, answers_of(class))?;
        Ok(ClassTable { class, answers })
    }

    /// Whether the element with this number is in the class.
    #[inline(always)]
    pub fn has(&self, number: u32) -> bool
        ensures { result ≡ is_in_class self.now number }
    {
        if number < 256 {
            self.answers[number as usize]
        } else {
            is_in(self.class, number)
        }
    }
}
