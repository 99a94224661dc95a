//! Examples of rounds. Each is the contract of a function that does nothing, or that calls the law which it is an example of. The designs stand in `specs`.

ghost use Rattle.std.specs.Prelude.{◌≡◌, ℕ, List, [], ◌∷◌, Some, map};
ghost use Rattle.design_model.specs.Heights.{net_height, enough_rounds};
ghost use Rattle.design_model.specs.HeightsLaws.{of_part};
ghost use Rattle.design_model.specs.Met.{IsMet};
ghost use Rattle.design_model.specs.Rounds.{IsMinimumIn};
ghost use Rattle.design_model.specs.Shown.{IsShown};
ghost use Rattle.design_model.specs.Steady.{design_of, wiring};
ghost use Rattle.design_model.specs.SteadyLaws.{EndsLeastIn, IsSteadyIn};
ghost use Rattle.design_model.specs.Typed.{IsTyped};
ghost use Rattle.model_examples.specs.Back as back;
ghost use Rattle.model_examples.specs.Either.{either, paid};
ghost use Rattle.model_examples.specs.Once.{once};
ghost use Rattle.model_examples.specs.Outer.{body, outer};
ghost use Rattle.model_examples.specs.Words.{no_types, counts};

use round_laws::enough_rounds_are_enough;

/// A part that has to provide what it requires itself, and provides 0 for 1, makes a net of height 1. It isn't steady in 2 rounds: the height and 1 is one round too few.
pub fn one_round_less_is_not_enough()
    ensures typed { IsTyped no_types (design_of once) }
    ensures height { net_height no_types (wiring once) (map (of_part no_types) once.parts) ≡ Some 1 }
    ensures moves { IsSteadyIn no_types 2 once [] → ⊥ }
{}

/// A load of 95 on a body that carries its own motor, in 2 rounds. The whole is steady there, and its state 50 | 50 is a least end of 2 steps. The body is met at 96, and nowhere at 95. At 96 its minimum is 50, and it isn't steady.
pub fn outer_in_2_rounds()
    ensures root_is_steady { IsSteadyIn no_types 2 outer (counts (95 ∷ [])) }
    ensures least_end { EndsLeastIn no_types 2 outer (counts (95 ∷ [])) 2 (counts (50 ∷ 50 ∷ [])) }
    ensures met_at_96 { IsMet no_types 2 (0 ∷ []) (design_of outer) (counts (95 ∷ [])) (design_of body) (counts (96 ∷ [])) }
    ensures not_met_at_95 { (path : List ℕ) → IsMet no_types 2 path (design_of outer) (counts (95 ∷ [])) (design_of body) (counts (95 ∷ [])) → ⊥ }
    ensures minimum_at_96 { IsMinimumIn no_types 2 (design_of body) (counts (96 ∷ [])) (counts (50 ∷ [])) }
    ensures body_moves { IsSteadyIn no_types 2 body (counts (96 ∷ [])) → ⊥ }
{}

/// A choice between a fixed price of 9 and a loop that asks for more in each round and takes a fee of 1, in 5 rounds. Both 9 without a fee and 5 with it are minima of these rounds. The first is shown and the second isn't: the loop is met, and isn't steady.
pub fn either_in_5_rounds()
    ensures fixed_minimum { IsMinimumIn no_types 5 either [] (counts (9 ∷ 0 ∷ [])) }
    ensures loop_minimum { IsMinimumIn no_types 5 either [] (counts (5 ∷ 1 ∷ [])) }
    ensures fixed_shown { IsShown no_types 5 either [] (counts (9 ∷ 0 ∷ [])) }
    ensures loop_not_shown { IsShown no_types 5 either [] (counts (5 ∷ 1 ∷ [])) → ⊥ }
    ensures loop_met { IsMet no_types 5 (1 ∷ []) either [] (design_of paid) [] }
    ensures loop_moves { IsSteadyIn no_types 5 paid [] → ⊥ }
{}

/// For the part over a poset that is asked for what it asks for, 4 rounds are enough. So its minimum is one of 4 rounds, and is shown.
pub fn back_is_shown_in_4_rounds()
    ensures enough { enough_rounds back.types back.back ≡ Some 4 }
    ensures minimum { IsMinimumIn back.types 4 back.back [] (back.t ∷ []) }
    ensures shown { IsShown back.types 4 back.back [] (back.t ∷ []) }
{
    enough_rounds_are_enough();
}
