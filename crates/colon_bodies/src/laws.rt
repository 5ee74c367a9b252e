//! Laws of the definitions.

ghost use Rattle.std.specs.Prelude.{◌≡◌, Bool, ℕ, Some, List};
ghost use Rattle.colon_bodies.specs.Tokens.{Token};
ghost use Rattle.colon_bodies.specs.Tree.{Definition, all_words};
ghost use Rattle.colon_bodies.specs.Code.{whole_code};
ghost use Rattle.colon_bodies.specs.Found.{found};
ghost use Rattle.colon_bodies.specs.Plain.{AreApart, IsPlainDefinition, all_spelled, respelled};
ghost use Rattle.colon_bodies.specs.Faults.{IsGood, IsFault, HasNoFault, IsSameFault};
ghost use Rattle.colon_bodies.specs.declared.fault.BodyCause.{BodyCause};

/// A list of words is the words of one definition at most.
pub fn one_body()
    ensures { (t u : Definition) → all_words t ≡ all_words u → t ≡ u }
{}

/// A good source has no fault.
pub fn good_has_no_fault()
    ensures { (rt : ℕ → ℕ) (at limit : ℕ) (source : List Token) (body : Definition) (used : ℕ) →
        IsGood rt at limit source body used → HasNoFault rt at limit source }
{}

/// No bytes are the threads of two plain definitions.
pub fn one_thread()
    ensures { (rt : ℕ → ℕ) (t u : Definition) (at : ℕ) → AreApart rt → IsPlainDefinition rt t →
        IsPlainDefinition rt u → whole_code rt t at ≡ whole_code rt u at → t ≡ u }
{}

/// A source has one first fault at most; lack of memory aside.
pub fn one_fault()
    ensures { (rt : ℕ → ℕ) (at limit : ℕ) (source : List Token) (p q : ℕ) (c d : BodyCause) →
        IsFault rt at limit source p c → IsFault rt at limit source q d → IsSameFault p c q d }
{}

/// Forced names write the same.
pub fn spelled_thread()
    ensures { (rt : ℕ → ℕ) (f : ℕ → Bool) (d : Definition) (at : ℕ) → whole_code rt (all_spelled f d) at ≡ whole_code rt d at }
{}

/// The words of the same definition with forced names.
pub fn spelled_words()
    ensures { (rt : ℕ → ℕ) (f : ℕ → Bool) (d : Definition) → IsPlainDefinition rt d →
        all_words (all_spelled f d) ≡ respelled f (all_words d) }
{}

/// A plain definition is found again in its thread.
pub fn found_again()
    ensures { (rt : ℕ → ℕ) → AreApart rt → (t : Definition) (at : ℕ) → IsPlainDefinition rt t →
        found rt (whole_code rt t at) at ≡ Some t }
{}
