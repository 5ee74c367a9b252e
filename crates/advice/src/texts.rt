//! The texts of messages about faults. tools/make-advice-texts wrote it: change data/faults.txt and screens/library/later.fs.

/// The message `unknown`.
pub static UNKNOWN: &[u8] = b"{word} is unknown";

/// The message `elsewhere`.
pub static ELSEWHERE: &[u8] = b"{word} is protected, or in another vocabulary";

/// The message `hidden`.
pub static HIDDEN: &[u8] =
    b"{word} is unknown in this dialect; screens do not find the tool of that name";

/// The message `large`.
pub static LARGE: &[u8] = b"{word} does not fit in a cell of 16 bits; {word}. is a double number";

/// The message `full`.
pub static FULL: &[u8] = b"{message}; bytes left: {left}{needs}; FORGET makes room";

/// The message `needs`.
pub static NEEDS: &[u8] = b"; a dialect needs 2048";

/// The message `long`.
pub static LONG: &[u8] = b"a name has at most {most} characters";

/// The message `follows`.
pub static FOLLOWS: &[u8] = b"a name or a text must follow";

/// The message `unquoted`.
pub static UNQUOTED: &[u8] = b"the text has no closing quote";

/// The message `leaving`.
pub static LEAVING: &[u8] = b"; BYE leaves the Forth";

/// The message `several`.
pub static SEVERAL: &[u8] = b"; a loop with more than one WHILE needs INCLUDE later.fs";

/// The message `prim`.
pub static PRIM: &[u8] =
    b"; screens 1 to 20 are the sources of the Forth itself, and yours begin at 21";

/// The message `undone`.
pub static UNDONE: &[u8] = b"; it is not finished: its ; is missing, or RECURSE is meant";

/// The message `dialect`.
pub static DIALECT: &[u8] = b"; screens/dialects/{last} has it";

/// The message `dialects`.
pub static DIALECTS: &[u8] = b"; screens/dialects/{others} and {last} have it";

/// The message `library`.
pub static LIBRARY: &[u8] = b"; INCLUDE {file} has it";

/// The message `parted`.
pub static PARTED: &[u8] = b"; write a blank after {front}";

/// The message `sum`.
pub static SUM: &[u8] = b"; write {first} {second} {sign}";

/// The message `near`.
pub static NEAR: &[u8] = b"; is {name} meant?";

/// The message `open`.
pub static OPEN: &[u8] = b": {word} of {line} has no {end}";

/// The message `looped`.
pub static LOOPED: &[u8] =
    b"EXIT in a DO loop leaves the cells of the loop: write UNLOOP before it (INCLUDE later.fs has it){where}";

/// The message `numbered`.
pub static NUMBERED: &[u8] = b"{said} (fault {fault})";

/// What the number of a fault means.
pub fn of_fault(number: u16) -> &'static [u8] {
    match number {
        1 => b"the stack was empty",
        2 => b"the stack was full",
        3 => b"the return stack was empty",
        4 => b"the return stack was full",
        5 => b"division by zero, or a quotient too large",
        6 => b"not the address of a word",
        7 => b"there is no such screen",
        8 => b"the dictionary is full",
        9 => b"the screen cannot be read",
        10 => b"the screen cannot be written: make room on the disk, then SAVE",
        11 => b"a chain of the dictionary is broken",
        12 => b"BASE was outside 2 to 72",
        15 => b"a name or a text is missing or too long",
        16 => b"screen 0 cannot be loaded",
        17 => b"",
        _ => b"the program raised a fault of its own, or its words were overwritten",
    }
}

/// The names that later.fs makes.
pub static LATER: &[u8] =
    b"/STRING 0<> 2>R 2R> 2R@ :NONAME >DIGIT >NUMBER ACCEPT ALIGN ALIGNED ALLOT BUFFER: CATCH CHAR+ \
    COMPARE D>S DEFER! DEFER@ ENVIRONMENT? EVALUATE FM/MOD INVERT LAST LSHIFT M* MARKER MOVE MS@ \
    NEXT-CHAR PARSE PARSE-NAME PLACE POSTPONE REPEAT RSHIFT S>D SM/REM SOURCE THROW TICKS TIME&DATE \
    U> UNLOOP WHILE [DEFINED] [ELSE] [IF] [THEN] [UNDEFINED]";
