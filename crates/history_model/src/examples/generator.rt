//! Scripts that `gen` makes.
#![tactic(auto, unfolding(crate::specs::scripts::Generator::generated_script, crate::specs::scripts::Generator::generated_lines, crate::specs::scripts::Generator::step_lines, crate::specs::scripts::Generator::made_in, crate::specs::scripts::Generator::number_of, crate::specs::scripts::Generator::next_state))]

ghost use Rattle.std.specs.Prelude.{◌≡◌, codes};
ghost use Rattle.history_model.specs.scripts.Generator.{generated_script, number_of, next_state};

/// With seed 0 the first number below 8 is 7.
pub fn first_number_of_seed_0()
    ensures { number_of 8 (next_state 0) ≡ 7 }
{}

/// Six steps and the last tick with seed 0, and one step of each kind that they do not have.
pub fn scripts_of_seeds()
    ensures seed_0 { generated_script 0 6 ≡ codes "2.1 MIXER 1-1 OPACITY\n3.1 SWAP 2-0 2-0 TRANSFORMS\n1.1 MIXER 2-2 FILL 0.5 0 0.0 1 DEFER\n3.1 LOADBG 2-2 route://2 WIPE 4 LEFT AUTO\n3.1 SWAP 2-2 2-3 TRANSFORMS\n1.1 PLAY 2-3 #E950DAE4 MIX 1\nT\n" }
    ensures commit { generated_script 2 1 ≡ codes "3.1 MIXER 1 COMMIT\nT\n" }
    ensures tick { generated_script 5 1 ≡ codes "T\nT\n" }
    ensures opacity { generated_script 4 1 ≡ codes "3.1 MIXER 1-2 OPACITY 0.5 7\nT\n" }
{}
