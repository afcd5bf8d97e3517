ghost use Rattle.std.specs.Prelude.{◌≡◌, ℕ, List, Contains, true};
ghost use Rattle.px_regcode.specs.declared.instructions.Instr.{Instr};
ghost use Rattle.px_regcode.specs.declared.operands.RegKind.{RegKind};
ghost use Rattle.px_regcode.specs.Effects.{reads};
ghost use Rattle.px_regcode.specs.Facts.{FrameMay, RegisterMay, Stage, State, changes, derives, done, is_one_of, makes, numbers_of};
ghost use Rattle.px_regcode.specs.Formed.{KeepsRules};
ghost use Rattle.px_regcode.specs.Images.{ImageParts};
ghost use Rattle.px_regcode.specs.Listed.{AllStated, Place, is_closed, keeps_rules};
ghost use Rattle.px_regcode.specs.Shapes.{needs, registers_in};

/// The tables of instructions agree: each register that is read is asked for a kind, and each one for which a done instruction makes a
/// fact, or gets one of a register that it reads, has no other fact behind it.
pub fn effect_laws()
    ensures asked { (result : RegKind) (i : Instr) → registers_in (needs result i) ≡ numbers_of (reads i) }
    ensures made { (image : ImageParts) (stage : Stage) (i : Instr) (r : ℕ) (s : State) →
        Contains (makes image stage i done) (r, s) → is_one_of r (changes image stage i) ≡ true }
    ensures derived { (image : ImageParts) (stage : Stage) (i : Instr) (r : ℕ) (s : State) (d : ℕ) (t : State) →
        Contains (derives i r s) (d, t) → is_one_of d (changes image stage i) ≡ true }
{}

/// Code keeps the rules where a listed table of its facts passes two tests, and each instruction has the operands and the stage that are
/// asked of it.
pub fn formed_laws()
    ensures { (image : ImageParts) (table : List (List Place)) → is_closed image table ≡ true → keeps_rules image table ≡ true
        → AllStated image table 0 image.codes → KeepsRules image (FrameMay image) (RegisterMay image) }
{}
