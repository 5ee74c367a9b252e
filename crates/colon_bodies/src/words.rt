//! The words of a body.

/// A word of a body, looked up.
#[derive(Clone, Copy, Debug, PartialEq, Eq)]
pub enum BodyWord<'a> {
    /// A name, by its compilation address.
    Name(u16),
    /// A number.
    Number(u16),
    /// A double number.
    Double(u32),
    /// `[']`, which takes the name after it.
    Tick,
    /// `[COMPILE]`, which takes the name after it.
    Force,
    /// COMPILE, which takes the name after it.
    Compile,
    /// IF.
    If,
    /// ELSE.
    Else,
    /// THEN.
    Then,
    /// BEGIN.
    Begin,
    /// UNTIL.
    Until,
    /// AGAIN.
    Again,
    /// WHILE.
    While,
    /// REPEAT.
    Repeat,
    /// DO.
    Do,
    /// LOOP, or +LOOP if this is true.
    Loop(bool),
    /// `."` and its text, or ABORT" if the first is true.
    Text(bool, &'a [u8]),
    /// DOES>.
    Does,
    /// `;`.
    Semicolon,
}

/// What the words before have started that a name has to complete.
#[derive(Clone, Copy, Debug, PartialEq, Eq)]
pub enum Half {
    /// Nothing.
    Free,
    /// `[']`.
    Ticked,
    /// `[COMPILE]`.
    Forced,
    /// COMPILE.
    Compiling,
    /// COMPILE `[COMPILE]`.
    Both,
}
