//! Laws of the definitions.

ghost use Rattle.std.specs.Prelude.{◌≡◌, List, ℕ, Option};
ghost use Rattle.dmn_head.specs.declared.plan.Plan.{Plan};
ghost use Rattle.dmn_head.specs.declared.target.Target.{Target};
ghost use Rattle.dmn_head.specs.Routes.{Routed};
ghost use Rattle.dmn_head.specs.Wants.{HeadPlan};

/// Each path has one route or none.
pub fn each_path_has_one_route()
    ensures { (path : List ℕ) (a b : Option Target) → Routed path a → Routed path b → a ≡ b }
{}

/// The bytes of each head ask for one thing.
pub fn each_head_asks_once()
    ensures { (bytes : List ℕ) (p q : Plan) → HeadPlan bytes p → HeadPlan bytes q → p ≡ q }
{}
