//! Laws of what the resident compiler writes.

ghost use Rattle.std.specs.Prelude.{◌≡◌, ◌≢◌, ◌<◌, ◌≤◌, ℕ, Bool, true, false, ◌+◌, ◌/◌, ◌%◌, ◌++◌, List, Some, length};
ghost use Rattle.memory.specs.Bytes.{cell, cell_bytes, put_cell};
ghost use Rattle.memory.specs.declared.limit.TheConstants.{GREATEST_LIMIT};
ghost use Rattle.memory.specs.declared.system.TheConstants.{BLK, DP, TO_IN, FENCE};
ghost use Rattle.compiling_words.specs.Code.{runtime, literal_code, text_code};
ghost use Rattle.compiling_words.specs.Definitions.{ended};
ghost use Rattle.compiling_words.specs.Laying.{laid};
ghost use Rattle.machine_parts.specs.Whole.{Whole};
ghost use Rattle.machine_parts.specs.Row.{fault};
ghost use Rattle.machine_parts.specs.declared.faults.TheConstants.{UNKNOWN_CODE};
ghost use Rattle.machine_parts.specs.declared.parts.Outcome.TheVariants.{Done, Fault};
ghost use Rattle.primitives.specs.Table.{row};
ghost use Rattle.primitives.specs.Interpret.{compiles_past};
ghost use Rattle.primitives.specs.Defining.{lays_past};
ghost use Rattle.input_source.specs.declared.words.Word.{Word};
ghost use Rattle.colon_bodies.specs.declared.words.Half.TheVariants.{Free};
ghost use Rattle.colon_bodies.specs.Tokens.{Token, NAME, NUMBER, DOUBLE, TEXT, text_control, laid_by};
ghost use Rattle.colon_bodies.specs.Tree.{Body, Definition, Tick, all_words};
ghost use Rattle.colon_bodies.specs.Code.{all_size};
ghost use Rattle.colon_bodies.specs.Open.{Outer, State, At};
ghost use Rattle.image_builder.specs.Places.{Place};
ghost use Rattle.image_builder.specs.Items.{Items, end_of};
ghost use Rattle.image_builder.specs.Grammar.{is_gap};
ghost use Rattle.image_builder.specs.Headers.{memory_of};
ghost use Rattle.resident_bodies.specs.Definitions.{OfSound, EndsInColon, Opens, Agrees, laid_by_words, laid_definition, with_definition};
ghost use Rattle.resident_bodies.specs.Words.{FitsHere, LaysBehind, behind_word, laid_past, lays, lays_all, row_of, with_true};
ghost use Rattle.resident_bodies.specs.Drafts.{Beginning, Bodied, HasRoom, IsDraft, MayCome, read_on};

/// What a word of a body writes when the resident compiler reads it is what the word makes of the body that was read in part:
/// the bytes of the open structures and the bodies, with a 0 in each cell that waits for its address.
pub fn word_law()
    ensures { (b : Beginning) (r q : State) (w : Token) (m d : List ℕ) → HasRoom b.at m (laid_by w) →
        read_on r w ≡ Some q → IsDraft b r (m, d) → IsDraft b q (lays w m d) }
{}

/// Bytes that two calls write one after the other are what one call writes: so a control primitive and then a mark, or a literal
/// and then another, are written as by the word that writes them at once.
pub fn calls_law()
    ensures { (m xs ys : List ℕ) → length m ≡ 65536 → 30 ≤ cell m DP →
        cell m DP + length xs + length ys ≤ GREATEST_LIMIT → laid (laid m xs) ys ≡ laid m (xs ++ ys) }
{}

/// Where a keyword may come next, its row writes memory and leaves the data stack as the word does, and does nothing else.
/// The row of `;` ends the definition.
pub fn row_law()
    ensures keyword { (b : Beginning) (r : State) (word : Token) (number token : ℕ) (s : Whole) → MayCome b r word s →
        row_of word ≡ Some number → row number token s ≡ (behind_word word s, Done) }
    ensures semicolon { (s : Whole) (token : ℕ) → FitsHere s 2 →
        row 169 token s ≡ (record s { memory = ended s.memory }, Done) }
{}

/// Where the words of a definition's body are read one after another, its size is how far HERE moves, and its code is what is
/// written there; the data stack is as it was.
pub fn body_law()
    ensures laid { (m d : List ℕ) (at : ℕ) (body : Definition) → length m ≡ 65536 → cell m DP ≡ at →
        HasRoom at m (all_size body) → Bodied m at body (lays_all (all_words body) m d).0 }
    ensures stack { (m d : List ℕ) (at : ℕ) (body : Definition) → length m ≡ 65536 → cell m DP ≡ at →
        HasRoom at m (all_size body) → (lays_all (all_words body) m d).1 ≡ d }
{}

/// A row that takes a name, a number or a text out of the stream moves >IN first, and writes what the word writes there; that >IN
/// moves leaves a definition written in part as it is. What `[']` writes at once is what its two words write.
pub fn stream_law()
    ensures moved { (b : Beginning) (r : State) (m d : List ℕ) (q : ℕ) → 256 ≤ b.at → IsDraft b r (m, d) →
        IsDraft b r (put_cell m TO_IN q, d) }
    ensures compiles { (s : Whole) (word : Word) (bs : List ℕ) → FitsHere s (length bs) → length s.values ≤ 255 →
        compiles_past s word bs ≡ (with_true (laid_past s word bs), Done) }
    ensures lays { (s : Whole) (word : Word) (bs : List ℕ) → FitsHere s (length bs) →
        lays_past s word bs ≡ (laid_past s word bs, Done) }
    ensures name { (m d : List ℕ) (q w : ℕ) → LaysBehind m d q (NAME w) (cell_bytes w) }
    ensures number { (m d : List ℕ) (q n : ℕ) → LaysBehind m d q (NUMBER n) (literal_code m n) }
    ensures double { (m d : List ℕ) (q n : ℕ) →
        LaysBehind m d q (DOUBLE n) (literal_code m (n % 65536) ++ literal_code m (n / 65536)) }
    ensures text { (m d text : List ℕ) (q : ℕ) (aborts : Bool) →
        LaysBehind m d q (TEXT aborts text) (text_code (runtime m (text_control aborts)) text) }
    ensures tick { (b : Beginning) (o : Outer) (t : Body) (m d : List ℕ) (w : ℕ) → HasRoom b.at m 4 →
        IsDraft b (At o t Free) (m, d) → IsDraft b (At o (Tick t w) Free) (laid m (literal_code m w), d) }
{}

/// The numbers that no primitive may have, for the metacompiler, are those of no row: there the table answers unknown code, and
/// the row of no other number below 205 ever does, except (FAULT), which answers the fault that it takes.
pub fn gap_law()
    ensures gap { (n w : ℕ) (s : Whole) → is_gap n ≡ true → row n w s ≡ fault s UNKNOWN_CODE }
    ensures rows { (n w : ℕ) (s : Whole) → 0 < n → n < 205 → is_gap n ≡ false → n ≢ 26 →
        (row n w s).1 ≢ Fault UNKNOWN_CODE }
    ensures past { (n w : ℕ) (s : Whole) → 204 < n → row n w s ≡ fault s UNKNOWN_CODE }
{}

/// A colon item of the metacompiler is one header with its code after it: the image's memory with it is the memory before
/// it, with that header at HERE, in front of its chain, and FENCE after it.
pub fn item_law()
    ensures { OfSound (λ limit u. (t : Items) (name : Place) (body : Definition) → EndsInColon u t name body →
        memory_of u ≡ put_cell (with_definition t name body) FENCE (end_of u)) }
{}

/// A definition that the resident compiler begins, whose body's words it reads, and which it ends, is that one header with
/// its code after it. So both compilers write the same. In the memory of each image a definition may begin that has room.
pub fn definition_law()
    ensures opens { OfSound (λ limit t. (name : List ℕ) (behind : ℕ) → length name ≤ 31 →
        end_of t + (7 + length name + behind) ≤ limit → Opens (memory_of t) name behind) }
    ensures whole { (m d name : List ℕ) (body : Definition) → Opens m name (all_size body + 2) →
        Agrees (laid_by_words m d name body) (laid_definition m (cell m BLK) name body) }
{}
