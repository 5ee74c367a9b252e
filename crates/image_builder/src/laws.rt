//! Laws of the definitions.

ghost use Rattle.std.specs.Prelude.{◌≡◌, ℕ, ◌+◌, ◌-◌, ◌<◌, ◌≤◌, ◌*◌, ◌++◌, List, length, sum, Some, None};
ghost use Rattle.std.specs.List.{All};
ghost use Rattle.memory.specs.Bytes.{bytes, cell, cell_bytes};
ghost use Rattle.memory.specs.declared.system.TheConstants.{DP, RUNTIME_CELLS};
ghost use Rattle.block_buffers.specs.Disks.{Disk};
ghost use Rattle.image_loader.specs.Files.{Contents};
ghost use Rattle.image_builder.specs.Sources.{Done, AllReadable, AreGood, IsBuiltOf, IsDecided, IsFirstFault, IsRefusal};
ghost use Rattle.image_builder.specs.declared.cause.BuildFault.{BuildFault};
ghost use Rattle.dictionary.specs.Header.{is_immediate};
ghost use Rattle.image_builder.specs.declared.source.TheConstants.{PRIMITIVES_END, CONTROLS_END};
ghost use Rattle.image_builder.specs.Places.{Place};
ghost use Rattle.image_builder.specs.declared.entry.Kind.{Kind};
ghost use Rattle.image_builder.specs.Items.{Items, image, system, controls, names, current, code_of, end_of, parameters, head_size, heads_of, kind_size, link_of};
ghost use Rattle.image_builder.specs.Names.{Name, IsLatest, within, found};
ghost use Rattle.dictionary.specs.Search.{Found, Nowhere, sought_in, sought};
ghost use Rattle.image_builder.specs.Grammar.{MakeImage};
ghost use Rattle.image_builder.specs.Headers.{memory_of, sizes, IsMade, IsVocabulary, IsTitled, Says, HasView, chain_of, links_of, sought_name, titled};
ghost use Rattle.image_builder.specs.Faults.{IsGood, IsFault, HasNoFault, IsSameFault};
ghost use Rattle.image_builder.specs.declared.cause.Cause.{Cause};
ghost use Rattle.image_builder.specs.declared.cause.Cause.TheVariants.{OutOfMemory};

/// A good source has no fault.
pub fn good_has_no_fault()
    ensures { (limit : ℕ) (source : List Place) (u : Items) (entry : ℕ) → IsGood limit source u entry →
        HasNoFault limit source }
{}

/// A source has one first fault at most; lack of memory aside.
pub fn one_fault()
    ensures { (limit : ℕ) (source : List Place) (last p q o n : ℕ) (a b : Cause) → IsFault limit source last p o a →
        IsFault limit source last q n b → IsSameFault p o a q n b }
{}

/// A good source is the words of one list of items, and has one entry; so there is one image of it.
pub fn one_image()
    ensures items { (limit : ℕ) (source : List Place) (t u : Items) (e f : ℕ) → IsGood limit source t e →
        IsGood limit source u f → (t ≡ u) × (e ≡ f) }
    ensures image { (count : ℕ) (d : Disk) (from to : ℕ) (a b : Contents) (x y : Done) →
        IsBuiltOf count d from to a x → IsBuiltOf count d from to b y → a ≡ b }
{}

/// The screens of a disk are refused for one fault, lack of memory aside: how many of them can be read decides which words
/// count. If all of them can be read, it is the first fault of the whole source; so a good source is then refused only for lack
/// of memory. A word that is at fault however the source goes on after the screens that were read is the first fault of the
/// whole source.
pub fn refusal_law()
    ensures one { (limit : ℕ) (d : Disk) (from to : ℕ) (e f : BuildFault) → IsRefusal limit d from to e →
        IsRefusal limit d from to f → IsSameFault e.screen e.offset e.cause f.screen f.offset f.cause }
    ensures first { (limit : ℕ) (d : Disk) (from to : ℕ) (e : BuildFault) → AllReadable d from to →
        IsRefusal limit d from to e → IsFirstFault limit d from to e }
    ensures good { (limit : ℕ) (d : Disk) (from to : ℕ) (e : BuildFault) → AreGood limit d from to →
        AllReadable d from to → IsRefusal limit d from to e → e.cause ≡ OutOfMemory }
    ensures whole { (limit : ℕ) (d : Disk) (from to k : ℕ) (e : BuildFault) → k ≤ to + 1 - from →
        IsDecided limit d from to k e → IsFirstFault limit d from to e }
{}

/// An image is as long as the sizes of its items, after the 256 bytes of the system's cells.
pub fn size_law()
    ensures length { (t : Items) → length (image t) ≡ 256 + sum (sizes t) }
    ensures end { (t : Items) → cell (memory_of t) DP ≡ 256 + sum (sizes t) }
{}

/// The numbers of primitives end before 205, and those of controls before 28.
pub fn primitives_law()
    ensures primitives { PRIMITIVES_END ≡ 205 }
    ensures controls { CONTROLS_END ≡ 28 }
{}

/// The cells of an image's memory below 64 are the system's, as its items make them; and each runtime cell is the compilation
/// address of its control primitive, 0 if it has no name.
pub fn cells_law()
    ensures system { (t : Items) (i : ℕ) → i < 32 → cell (memory_of t) (2 * i) ≡ system t (2 * i) }
    ensures runtime { (t : Items) (k : ℕ) → k < 32 → cell (memory_of t) (RUNTIME_CELLS + 2 * k) ≡ controls t k }
{}

/// In an image's memory the chain of each class of a vocabulary is exactly the names of that vocabulary and class, newest
/// first.
pub fn chain_law()
    ensures { (t : Items) (voc class : ℕ) → MakeImage t → IsVocabulary t voc → class < 4 →
        chain_of (memory_of t) voc class ≡ links_of voc class (names t) }
{}

/// The header of each item that makes one is where the items before it end. Its view cell is the screen of the name, its
/// link the newest earlier name of its vocabulary and class, 0 if there is none; and it isn't hidden.
pub fn header_law()
    ensures { (t before : Items) (p : Place) → MakeImage t → IsTitled t before p →
        Says (memory_of t) (end_of before + 2) p.screen (link_of before p) p.name }
{}

/// The header of each name is immediate exactly if the name is: an IMMEDIATE comes after its item, before the next header.
pub fn immediate_law()
    ensures { (t : Items) → MakeImage t →
        All (λ n. is_immediate (memory_of t) n.link ≡ n.immediate) (names t) }
{}

/// The header of each item without a body has the code field of its kind, and then what its kind writes: the value of a
/// constant, a variable's 0, a vocabulary's record; nothing for CREATE and a primitive.
pub fn field_law()
    ensures { (t before : Items) (p : Place) (k : Kind) → IsMade t before p k →
        bytes (memory_of t) (end_of before + (5 + length p.name)) (2 + kind_size k) ≡
        cell_bytes (code_of k) ++ parameters (heads_of t) before (end_of before + head_size p) k }
{}

/// A search of an image's memory comes to the newest name of a vocabulary that is spelled so, and to none if there is
/// none: in one vocabulary alone, and the machine's own, in the last current vocabulary and then in FORTH. So each header
/// is found by its name unless a later one of its vocabulary has it.
pub fn search_law()
    ensures alone { (t : Items) (voc : ℕ) (name : List ℕ) → MakeImage t → IsVocabulary t voc →
        sought_in (memory_of t) voc name ≡ sought_name (within voc name (names t)) }
    ensures machine { (t : Items) (name : List ℕ) → MakeImage t → 0 < length name →
        sought (memory_of t) name ≡ sought_name (found (current t) name (names t)) }
    ensures each { (t : Items) (n : Name) → MakeImage t → IsLatest n (names t) →
        sought_in (memory_of t) n.vocabulary n.name ≡ Found n.link }
{}

/// What the machine's search finds in an image's memory has the screen of its name in its view cell, that is of the newest
/// item spelled so in the last current vocabulary, else in FORTH; if no item is, nothing is found.
pub fn view_law()
    ensures there { (t : Items) (name : List ℕ) (p : Place) → MakeImage t → 0 < length name → titled name t ≡ Some p →
        HasView (memory_of t) name p.screen }
    ensures nowhere { (t : Items) (name : List ℕ) → MakeImage t → 0 < length name → titled name t ≡ None →
        sought (memory_of t) name ≡ Nowhere }
{}
