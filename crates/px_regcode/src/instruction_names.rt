//! The names of instructions.

ghost use Rattle.std.specs.Prelude.{◌≡◌, ◌||◌, [], if◌then◌else◌};
ghost use Rattle.px_regcode.specs.InstructionGroups.{is_value, is_builtin};
ghost use Rattle.px_regcode.specs.Listing.{name_of};

use crate::instructions::Instr;

/// The name of an instruction.
#[tactic(auto, unfolding(crate::specs::Listing::name_of))]
pub(crate) fn name_of(instr: &Instr) -> &'static str
    ensures { result.now ≡ name_of instr.now }
{
    match instr {
        Instr::Const(_, _) => "const",
        Instr::Move(_, _) => "move",
        Instr::Binary(_, _, _, _, _, _) => "binary",
        Instr::Unary(_, _, _, _) => "unary",
        Instr::Compare(_, _, _, _, _) => "compare",
        Instr::Convert(_, _, _) => "convert",
        Instr::Magnitude(_, _, _) => "magnitude",
        Instr::Jump(_) => "jump",
        Instr::Branch(_, _, _) => "branch",
        Instr::Turn => "turn",
        Instr::Call(_, _, _) => "call",
        Instr::Return(_) => "return",
        Instr::Finish => "finish",
        Instr::Handle(_) => "handle",
        Instr::Unhandle => "unhandle",
        Instr::Throw => "throw",
        Instr::Caught(_) => "caught",
        Instr::Takes(_, _, _) => "takes",
        Instr::Forget(_) => "forget",
        Instr::Unset(_) => "unset",
        Instr::Need(_) => "need",
        Instr::Element(_, _, _, _) => "element",
        Instr::Put(_, _, _, _) => "put",
        Instr::Pick(_, _, _, _, _) => "pick",
        Instr::Slice(_, _, _, _, _, _) => "slice",
        Instr::Axis(_, _, _) => "axis",
        Instr::Turned(_, _) => "turned",
        Instr::Extent(_, _, _) => "extent",
        Instr::Ordered(_, _) => "ordered",
        Instr::Acquire(_) => "acquire",
        Instr::Release(_) => "release",
        Instr::Fill(_, _) => "fill",
        Instr::Spread(_, _) => "spread",
        Instr::Ticket => "ticket",
        Instr::Enter => "enter",
        Instr::Leave => "leave",
        Instr::Loop(_, _, _) => "loop",
        Instr::Look => "look",
        Instr::Claim => "claim",
        Instr::Begin => "begin",
        Instr::End => "end",
        Instr::Stop(_, _) => "stop",
        Instr::Reduce(_, _, _, _) => "reduce",
        Instr::Members(_) => "members",
        _ => object_name(instr),
    }
}

/// The name of an object instruction; empty for another.
#[tactic(auto, unfolding(crate::specs::Listing::name_of))]
fn object_name(instr: &Instr) -> &'static str
    ensures { result.now ≡ (if is_value instr.now || is_builtin instr.now then name_of instr.now else []) }
{
    match instr {
        Instr::Text(_, _) => "text",
        Instr::Wide(_, _) => "wide",
        Instr::Box(_, _, _) => "box",
        Instr::Unbox(_, _, _) => "unbox",
        Instr::Truth(_, _) => "truth",
        Instr::Fetch(_, _) => "fetch",
        Instr::Keep(_, _) => "keep",
        Instr::Share(_, _) => "share",
        Instr::Drop(_) => "drop",
        Instr::ObjectBinary(_, _, _, _) => "obinary",
        Instr::ObjectUnary(_, _, _) => "ounary",
        Instr::ObjectCompare(_, _, _, _) => "ocompare",
        Instr::ObjectIn(_, _, _) => "oin",
        Instr::ObjectGet(_, _, _) => "oget",
        Instr::ObjectSet(_, _, _) => "oset",
        Instr::ObjectCut(_, _, _, _, _) => "ocut",
        Instr::List(_, _) => "list",
        Instr::Tuple(_, _) => "tuple",
        Instr::Dict(_, _) => "dict",
        Instr::Unpack(_, _, _) => "unpack",
        Instr::Method(_, _, _, _) => "method",
        Instr::Builtin(_, _, _) => "builtin",
        Instr::Print(_) => "print",
        Instr::Input(_, _) => "input",
        Instr::Raise(_, _) => "raise",
        Instr::Walk(_, _, _) => "walk",
        Instr::Next(_, _, _, _) => "next",
        Instr::Array(_, _) => "array",
        Instr::View(_, _, _, _) => "view",
        Instr::Copy(_, _) => "copy",
        Instr::Said(_, _) => "said",
        Instr::Rethrow(_) => "rethrow",
        _ => "",
    }
}
