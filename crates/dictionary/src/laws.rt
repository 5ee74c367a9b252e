//! Laws of the dictionary.

ghost use Rattle.std.specs.Prelude.{◌≡◌, ◌≢◌, ◌<◌, ◌≤◌, ◌↔◌, ℕ, Bool, List, length, slice_index, All, Contains, IsTrue, IsFalse, true, false, nat_lt};
ghost use Rattle.std.specs.List.Sorted.{IsStrictlyIncreasing};
ghost use Rattle.memory.specs.Bytes.{cell};
ghost use Rattle.memory.specs.declared.system.TheConstants.{FORTH_VOC, VOC_LINK};
ghost use Rattle.dictionary.specs.Header.{count_byte, name_length, is_hidden, is_immediate, is_named};
ghost use Rattle.dictionary.specs.Chain.{IsNewest};
ghost use Rattle.dictionary.specs.Search.{FindsNewest, Found, Nowhere, OfWholeChain, OfChainsAlike, goes_on_in, sought_in, sought_from};
ghost use Rattle.dictionary.specs.Adding.{is_name, new_count};
ghost use Rattle.dictionary.specs.Newest.{revealed};
ghost use Rattle.dictionary.specs.Order.{members, all_members, headers};
ghost use Rattle.dictionary.specs.Forgetting.{first_below};

/// Where a name is unhidden in its chain, and the chain has no more than 32,768 members, a search gives the newest
/// header of that name. If it isn't one, the search in FORTH decides.
pub fn search_law()
    ensures newest { (m name : List ℕ) (voc l : ℕ) → OfWholeChain m voc name (λ members.
        Contains members l → IsTrue (is_named m name l) → FindsNewest m voc name members) }
    ensures forth { (m name : List ℕ) (voc : ℕ) → OfWholeChain m voc name (λ members.
        All (λ l. IsFalse (is_named m name l)) members → sought_from m voc name ≡ sought_in m FORTH_VOC name) }
{}

/// A search looks at 32,768 members of a chain: if these are the same in two memories and have the same names, it
/// finds the same, and if both chains end there or both go on, it comes to the same. What comes after them doesn't
/// matter.
pub fn walk_law()
    ensures found { (m n name : List ℕ) (voc l : ℕ) → OfChainsAlike m n voc name
        (sought_in m voc name ≡ Found l → sought_in n voc name ≡ Found l) }
    ensures same { (m n name : List ℕ) (voc : ℕ) → OfChainsAlike m n voc name
        (goes_on_in m voc name ≡ goes_on_in n voc name → sought_in m voc name ≡ sought_in n voc name) }
{}

/// A name of no or of more than 31 bytes is never found, and for the empty name no chain is walked.
pub fn name_law()
    ensures found { (m name : List ℕ) (voc l : ℕ) → IsFalse (is_name name) → sought_from m voc name ≢ Found l }
    ensures empty { (m name : List ℕ) (voc : ℕ) → length name ≡ 0 → sought_from m voc name ≡ Nowhere }
{}

/// Names of more than 31 bytes with the same first byte are searched alike, so a longer one may be cut to 32 bytes. They
/// aren't found, and walk the same chains.
pub fn long_name_law()
    ensures never { (m name : List ℕ) (voc l : ℕ) → 31 < length name → sought_in m voc name ≢ Found l }
    ensures alone { (m name other : List ℕ) (voc : ℕ) → 31 < length name → 31 < length other
        → slice_index name 0 ≡ slice_index other 0 → sought_in m voc name ≡ sought_in m voc other }
    ensures from { (m name other : List ℕ) (voc : ℕ) → 31 < length name → 31 < length other
        → slice_index name 0 ≡ slice_index other 0 → sought_from m voc name ≡ sought_from m voc other }
{}

/// The headers are in the order of their addresses, none occurs twice, and they are the members of all chains.
pub fn headers_law()
    ensures ascending { (m : List ℕ) → IsStrictlyIncreasing (headers m) }
    ensures members { (m : List ℕ) (l : ℕ) → l < 65536
        → (Contains (headers m) l ↔ Contains (all_members m 32769 (cell m VOC_LINK)) l) }
{}

/// Where a chain has a member below `t`, FORGET keeps the newest of these in its head; else the head becomes 0.
pub fn forget_law()
    ensures newest { (m : List ℕ) (t head l : ℕ) → Contains (members m head) l → l < t
        → IsNewest (λ k. nat_lt k t) (members m head) (first_below t (members m head)) }
    ensures none { (m : List ℕ) (t head : ℕ) → All (λ k. t ≤ k) (members m head) → first_below t (members m head) ≡ 0 }
{}

/// What is revealed has the count byte that it would have had unhidden.
pub fn reveal_law()
    ensures { (name : List ℕ) → length name ≤ 31 → revealed (new_count true name) ≡ new_count false name }
{}

/// A new header's count byte says the length of its name, whether it is hidden, and that it isn't immediate.
pub fn count_byte_law()
    ensures length { (m name : List ℕ) (l : ℕ) (hidden : Bool) → length name ≤ 31
        → count_byte m l ≡ new_count hidden name → name_length m l ≡ length name }
    ensures hidden { (m name : List ℕ) (l : ℕ) (hidden : Bool) → length name ≤ 31
        → count_byte m l ≡ new_count hidden name → is_hidden m l ≡ hidden }
    ensures immediate { (m name : List ℕ) (l : ℕ) (hidden : Bool) → length name ≤ 31
        → count_byte m l ≡ new_count hidden name → is_immediate m l ≡ false }
{}
