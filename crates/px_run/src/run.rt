ghost use Rattle.std.specs.Prelude.{◌≡◌, ℕ, List, IfOk};
ghost use Rattle.px_model.specs.declared.outcomes.Outcome.{Outcome as Given};
ghost use Rattle.px_machine.specs.Slots as machine;
ghost use Rattle.px_machine.specs.Steps.{MemberEnd};
ghost use Rattle.px_machine.specs.OneWorld.{RunGives, end_of_member};
ghost use Rattle.px_meaning.specs.Worlds.{World};
ghost use Rattle.px_member.specs.Members.{HasEnded, HoldsAll, IsEnd};
ghost use Rattle.px_machine.specs.Running.{AllRun};
ghost use Rattle.px_run.specs.Driving.{Ends, EndsSo, RunEnds, printed_of};

use px_base::{Bytes, NoMemory, Numbers};
use px_interp::Interp;
use px_member::{Member, Step};
use px_model::{End, LoopEnd, Outcome};
use px_regcode::Image;
use std::alloc::Global;

/// Runs a module on its main member: how it ends, what it prints and the buffers that are released.
///
/// # Errors
/// `NoMemory` where there is no memory for its frames, its objects or what it prints.
pub fn run_module(
    alloc: Global,
    image: &Image,
    turns: u64,
    members: u32,
) -> Result<Outcome, NoMemory>
    requires run { AllRun image.now }
    requires ends { RunEnds image.now turns members }
    ensures { IfOk result (λ outcome. (names : ℕ) (input : List ℕ) (given : Given) → RunGives image.now names input turns members given → outcome ≡ given) }
{
    image.formed();
    let mut member = Member::main(alloc, image, turns, members)?;
    member.put_book(Interp::new(alloc));
    drive(&mut member, image)?;
    let output = output_of(alloc, &mut member);
    let end = end_of(member.into_end());
    Ok(Outcome {
        end,
        output,
        released: Numbers::new(alloc),
    })
}

/// Runs a member to its end.
///
/// # Errors
/// `NoMemory` where there is no memory for an instruction.
fn drive(member: &mut Member, image: &Image) -> Result<(), NoMemory>
    requires run { AllRun image.now }
    requires held { HoldsAll member.old }
    requires ends { Ends image.now member.old }
    ensures { IfOk result (λ _. (w : World) (last : MemberEnd) (rest : machine.Rest) (v : World) → EndsSo image.now member.old w last rest v
        → HasEnded member.new last rest × (v ≡ w)) }
{
    image.formed();
    loop {
        match member.step(image) {
            Step::Went => (),
            Step::Ended => return Ok(()),
            Step::NotYet => unreachable!(),
            Step::NoMemory => return Err(NoMemory),
        }
    }
}

/// What was printed, taken out of the object runtime.
fn output_of(alloc: Global, member: &mut Member) -> Bytes
    ensures output { result ≡ printed_of member.old.book }
    ensures end { member.new.end ≡ member.old.end }
{
    match member.take_book() {
        Some(book) => book.into_output(),
        None => Bytes::new(alloc),
    }
}

/// How a module ends whose main member ended so.
fn end_of(end: Option<LoopEnd>) -> End
    ensures { (last : MemberEnd) → IsEnd end last → result ≡ end_of_member last }
{
    match end {
        Some(LoopEnd::Raised(fault)) => End::Raised(fault),
        Some(LoopEnd::Spent) => End::Spent,
        _ => End::Done,
    }
}
