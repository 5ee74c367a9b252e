//! Laws of the definitions.

ghost use Rattle.std.specs.Prelude.{◌≡◌, ◌≢◌, ℕ, List, None, Result, IfErr, OnOk};
ghost use Rattle.colon_bodies.specs.Tokens.{Token};
ghost use Rattle.colon_bodies.specs.Tree.{Definition};
ghost use Rattle.see.specs.Naming.{IsReadable, first_fault};
ghost use Rattle.see.specs.Printing.{its_words, text};
ghost use Rattle.see.specs.ReadAgain.{AreCells};
ghost use Rattle.see.specs.Seeing.{IsAgain, IsDefined, IsSeenIn};
ghost use Rattle.see.specs.declared.refusal.SeeRefused.{SeeRefused};
ghost use Rattle.see.specs.declared.refusal.SeeRefused.TheVariants.{OutOfMemory};

/// Nothing is wrong with the words of a definition exactly if it is readable.
#[tactic(auto, using(crate::proofs::Answered::readable, crate::proofs::Answered::faultless))]
pub fn readable_law()
    ensures readable { (m : List ℕ) (l : ℕ) (name : List ℕ) (ws : List Token) → first_fault m l name ws ≡ None →
        IsReadable m l name ws }
    ensures faultless { (m : List ℕ) (l : ℕ) (name : List ℕ) (ws : List Token) → IsReadable m l name ws →
        first_fault m l name ws ≡ None }
{}

/// What SEE answers is a function of memory and the name, unless memory is lacking.
#[tactic(auto, using(crate::proofs::Answered::seen_once))]
pub fn answer_law()
    ensures { (m name a b : List ℕ) (x y : Result (Unit {0}) SeeRefused) → IsSeenIn m name a x → IsSeenIn m name b y →
        IfErr x (λ e. e ≢ OutOfMemory) → IfErr y (λ e. e ≢ OutOfMemory) → (x ≡ y) × OnOk x (a ≡ b) }
{}

/// The text of a readable definition, read as a source is, with the names and the runtime cells of the same memory, is a
/// definition within a source's bounds that is written as the word's thread. The word itself counts as hidden.
#[tactic(auto, using(crate::proofs::Whole::read_again))]
pub fn reading_law()
    ensures { (m name : List ℕ) (l : ℕ) (d : Definition) → IsDefined m name l d → IsReadable m l name (its_words d) →
        AreCells (its_words d) → (e : Definition) × IsAgain m l name (text m l name d) e }
{}
