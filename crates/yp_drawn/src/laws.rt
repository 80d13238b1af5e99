//! Laws of drawn scripts; nothing runs.
ghost use Rattle.std.specs.Prelude.{◌≡◌, ◌≤◌, ◌+◌, ℕ, Ok};
ghost use Rattle.yp_gen.specs.Scripts.{script_text};
ghost use Rattle.yp_script.specs.Script.{script_in, count_commands};
ghost use Rattle.yp_drawn.specs.Drawn.{drawn_script};

/// What is drawn from a seed and a size of at most 10,000 is read without a fault, as the script with so
/// many drawn commands. This script has three commands more: two subscriptions, and the last tick.
pub fn a_drawn_text_is_a_script()
    ensures script { (seed size : ℕ) → size ≤ 10000 → script_in (script_text seed size) ≡ Ok (drawn_script seed size) }
    ensures commands { (seed size : ℕ) → count_commands (drawn_script seed size) ≡ size + 3 }
{}
