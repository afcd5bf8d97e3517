//! How a member begins, and what is taken out of it at its end.

ghost use Rattle.std.specs.Prelude.{◌≡◌, [], IfOk, Some, None, slice_get};
ghost use Rattle.px_model.specs.declared.stores.Store.{Store};
ghost use Rattle.px_meaning.specs.States.{holding};
ghost use Rattle.px_meaning.specs.Modules.{first_state};
ghost use Rattle.px_machine.specs.Means.{first_member};
ghost use Rattle.px_interp.specs.Interps.{Interp as Runtime, Represents};
ghost use Rattle.px_member.specs.Members.{IsMember, count_of, references_in};

use crate::frames::Frame;
use crate::member::Member;
use px_base::NoMemory;
use px_interp::{Interp, Registers};
use px_model::LoopEnd;
use px_regcode::{Code, Image};
use std::alloc::Global;

/// How many registers module code has.
fn first_count(codes: &[Code]) -> u32
    ensures { result ≡ count_of (slice_get codes.now 0) }
{
    match codes.get(0) {
        Some(code) => code.registers,
        None => 0,
    }
}

impl Member {
    /// The main member of an image, which runs module code, before it has the object runtime.
    ///
    /// # Errors
    /// `NoMemory` where there is no memory for its registers.
    pub fn main(alloc: Global, image: &Image, turns: u64, members: u32) -> Result<Member, NoMemory>
        ensures begins { IfOk result (λ made. (interp : Runtime) (store : Store) → Represents interp store
            → IsMember (record made { book = Some interp }) (first_member image.now (holding store (first_state turns members)))) }
        ensures empty { IfOk result (λ made. references_in made ≡ []) }
        ensures book { IfOk result (λ made. made.book ≡ None) }
        ensures end { IfOk result (λ made. made.end ≡ None) }
    {
        let registers = Registers::new(alloc, first_count(image.codes()))?;
        Ok(Member {
            alloc,
            frame: Frame {
                function: 0,
                pc: 0,
                registers,
                result: None,
                handler: None,
                caught: None,
            },
            callers: Vec::new(alloc),
            turns,
            members,
            book: None,
            end: None,
        })
    }

    /// Gives the member the object runtime.
    pub fn put_book(&mut self, book: Interp)
        ensures { self.new ≡ record self.old { book = Some book } }
    {
        self.book = Some(book);
    }

    /// Takes the object runtime out.
    pub fn take_book(&mut self) -> Option<Interp>
        ensures book { result ≡ self.old.book }
        ensures rest { self.new ≡ record self.old { book = None } }
    {
        self.book.take()
    }

    /// How the member ended, if it has.
    pub fn into_end(self) -> Option<LoopEnd>
        ensures { result ≡ self.end }
    {
        let Member {
            alloc,
            frame,
            callers,
            turns,
            members,
            book,
            end,
        } = self;
        end
    }
}
