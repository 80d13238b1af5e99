//! What arguments say, by example. Each call does nothing.
ghost use Rattle.std.specs.Prelude.{◌≡◌, ◌∷◌, [], Some, None, codes};
ghost use Rattle.yp_words.specs.Words.{words_in};
ghost use Rattle.yp_words.specs.declared.words.Mode.TheVariants.{Run, Live, Trial};

/// `run`; `live --workers 8`; `--size=1 trial --seed=1`; `-- trial`; `trial --size +001`.
#[tactic(auto, using(crate::proofs::Examples::mode_alone, crate::proofs::Examples::with_workers, crate::proofs::Examples::options_around, crate::proofs::Examples::after_dashes, crate::proofs::Examples::with_plus))]
pub fn good_words_by_example()
    ensures mode_alone { words_in (codes "run" ∷ []) ≡ Some (record { mode = Run; workers = 2; seed = 1; size = 100 }) }
    ensures with_workers { words_in (codes "live" ∷ codes "--workers" ∷ codes "8" ∷ [])
        ≡ Some (record { mode = Live; workers = 8; seed = 1; size = 100 }) }
    ensures options_around { words_in (codes "--size=1" ∷ codes "trial" ∷ codes "--seed=1" ∷ [])
        ≡ Some (record { mode = Trial; workers = 2; seed = 1; size = 1 }) }
    ensures after_dashes { words_in (codes "--" ∷ codes "trial" ∷ []) ≡ Some (record { mode = Trial; workers = 2; seed = 1; size = 100 }) }
    ensures with_plus { words_in (codes "trial" ∷ codes "--size" ∷ codes "+001" ∷ [])
        ≡ Some (record { mode = Trial; workers = 2; seed = 1; size = 1 }) }
{}

/// No words; `lives`; `run run`; `run --workers 9`; `trial --size=0`; an option twice; a request for help.
#[tactic(auto, using(crate::proofs::Examples::no_words, crate::proofs::Examples::no_mode, crate::proofs::Examples::two_modes, crate::proofs::Examples::past_most, crate::proofs::Examples::below_least, crate::proofs::Examples::option_twice, crate::proofs::Examples::help_asked))]
pub fn bad_words_by_example()
    ensures no_words { words_in [] ≡ None }
    ensures no_mode { words_in (codes "lives" ∷ []) ≡ None }
    ensures two_modes { words_in (codes "run" ∷ codes "run" ∷ []) ≡ None }
    ensures past_most { words_in (codes "run" ∷ codes "--workers" ∷ codes "9" ∷ []) ≡ None }
    ensures below_least { words_in (codes "trial" ∷ codes "--size=0" ∷ []) ≡ None }
    ensures option_twice { words_in (codes "gen" ∷ codes "--seed=1" ∷ codes "--seed=1" ∷ []) ≡ None }
    ensures help_asked { words_in (codes "run" ∷ codes "--help" ∷ []) ≡ None }
{}
