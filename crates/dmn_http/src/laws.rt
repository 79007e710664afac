//! Laws of the definitions.

ghost use Rattle.std.specs.Prelude.{◌≡◌, ◌≢◌, ◌++◌, List, ℕ};
ghost use Rattle.dmn_registry.specs.Machine.{Machine};
ghost use Rattle.dmn_http.specs.Exchanges.{Outcome, Exchanges, leaves};
ghost use Rattle.dmn_http.specs.Replies.{HttpBytes};

/// The bytes of each caller ask for one thing.
pub fn each_text_asks_once()
    ensures { (text : List ℕ) (a b : Outcome) → Exchanges text a → Exchanges text b → a ≡ b }
{}

/// A request that has come is the same whatever comes behind it.
pub fn what_comes_behind_changes_nothing()
    ensures { (text more : List ℕ) (outcome : Outcome) → Exchanges text outcome → outcome ≢ leaves → Exchanges (text ++ more) outcome }
{}

/// The bytes of each caller have one reply of a machine, and one machine after it.
pub fn each_text_has_one_reply()
    ensures { (m : Machine) (text a b : List ℕ) (n o : Machine) → HttpBytes m text a n → HttpBytes m text b o → (a ≡ b) × (n ≡ o) }
{}
