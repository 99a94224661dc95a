//! Each example is the contract of a function without a body. The designs stand in `specs`.

ghost use Rattle.std.specs.Prelude.{◌≡◌, List, [], ◌∷◌};
ghost use Rattle.design_model.specs.Cuts.{cut_signals};
ghost use Rattle.design_model.specs.Evaluation.{evaluation_order};
ghost use Rattle.design_model.specs.Feasible.{AreMinima, IsFeasible};
ghost use Rattle.design_model.specs.Steady.{wiring};
ghost use Rattle.design_model.specs.SteadyLaws.{StepsIn, EndsIn};
ghost use Rattle.model_examples.specs.Back as back;
ghost use Rattle.model_examples.specs.Batteries.{batteries};
ghost use Rattle.model_examples.specs.TwoBounds as bounds;
ghost use Rattle.model_examples.specs.Climb.{climb, the_signal};
ghost use Rattle.model_examples.specs.Lifter.{lifter};
ghost use Rattle.model_examples.specs.Motors.{motors};
ghost use Rattle.model_examples.specs.Relay.{relay};
ghost use Rattle.model_examples.specs.Trade.{trade};
ghost use Rattle.model_examples.specs.Words.{no_types, counts};

/// For a lift of 90 the motors' least masses and costs are 8 and 7, and 10 and 5.
pub fn motors_at_90()
    ensures { AreMinima no_types motors (counts (90 ∷ [])) (counts (8 ∷ 7 ∷ []) ∷ counts (10 ∷ 5 ∷ []) ∷ []) }
{}

/// A payload of 95 g is lifted at 50 g and not at 10 g, and 50 g is the only minimum.
pub fn lifter_at_95()
    ensures at_50 { IsFeasible no_types lifter (counts (95 ∷ [])) (counts (50 ∷ [])) }
    ensures not_at_10 { IsFeasible no_types lifter (counts (95 ∷ [])) (counts (10 ∷ [])) → ⊥ }
    ensures minima { AreMinima no_types lifter (counts (95 ∷ [])) (counts (50 ∷ []) ∷ []) }
{}

/// Where the cost alone counts, a payload of 100 g takes the heavy motor, for 100 cents.
pub fn trade_at_100()
    ensures { AreMinima no_types trade (counts (100 ∷ [])) (counts (100 ∷ []) ∷ []) }
{}

/// A loop that asks for one more than it gives has one cut signal. In 5 rounds its state 4 | 4 ends a chain of 4 steps, and doesn't step to itself.
pub fn climb_at_4()
    ensures signals { cut_signals (wiring climb) ≡ the_signal ∷ [] }
    ensures ends { EndsIn no_types 5 climb [] 4 (counts (4 ∷ 4 ∷ [])) }
    ensures moves { StepsIn no_types 5 climb [] (counts (4 ∷ 4 ∷ [])) (counts (4 ∷ 4 ∷ [])) → ⊥ }
{}

/// Parts that are declared against the flow are evaluated along it, and none is cut.
pub fn relay_in_order()
    ensures order { evaluation_order (wiring relay) ≡ 2 ∷ 1 ∷ 0 ∷ [] }
    ensures uncut { cut_signals (wiring relay) ≡ [] }
{}

/// A part over a poset that is asked for what it asks for: only the top comes back to itself.
pub fn back_gives_the_top()
    ensures { AreMinima back.types back.back [] ((back.t ∷ []) ∷ []) }
{}

/// One required element above two given ones that are not compared, in a poset with two such: both are minima.
pub fn two_bounds()
    ensures { AreMinima bounds.types bounds.two (bounds.a ∷ bounds.b ∷ []) ((bounds.c ∷ []) ∷ (bounds.d ∷ []) ∷ []) }
{}

/// Of two kinds of battery one is lighter and the other cheaper: both are minima.
pub fn batteries_at_60()
    ensures { AreMinima no_types batteries (counts (60 ∷ [])) (counts (10 ∷ 300 ∷ []) ∷ counts (30 ∷ 60 ∷ []) ∷ []) }
{}
