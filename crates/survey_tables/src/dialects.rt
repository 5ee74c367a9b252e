//! The dialects of old sources, and the systems with words of their own.

use crate::words::LeftOut;
use crate::{glossaries, texts};

/// A dialect for which there is a text in screens/dialects.
#[derive(Clone, Copy, Debug, PartialEq, Eq, Drop)]
pub enum Dialect {
    Fig,
    F79,
    F83,
    Poly,
}

/// All of them, in the order in which they are listed.
pub static DIALECTS: [Dialect; 4] = [Dialect::Fig, Dialect::F79, Dialect::F83, Dialect::Poly];

impl Dialect {
    /// What it is called.
    pub fn name(self) -> &'static [u8] {
        match self {
            Dialect::Fig => b"fig-FORTH",
            Dialect::F79 => b"Forth-79",
            Dialect::F83 => b"F83",
            Dialect::Poly => b"polyFORTH",
        }
    }

    /// The name of its text.
    pub fn key(self) -> &'static [u8] {
        match self {
            Dialect::Fig => b"fig",
            Dialect::F79 => b"f79",
            Dialect::F83 => b"f83",
            Dialect::Poly => b"poly",
        }
    }

    /// The numbers of its screens, in the order of its text.
    pub fn screens(self) -> &'static [u16] {
        match self {
            Dialect::Fig => &texts::SCREENS_FIG,
            Dialect::F79 => &texts::SCREENS_F79,
            Dialect::F83 => &texts::SCREENS_F83,
            Dialect::Poly => &texts::SCREENS_POLY,
        }
    }

    /// The names that its text makes.
    pub fn names(self) -> &'static [u8] {
        match self {
            Dialect::Fig => texts::NAMES_FIG,
            Dialect::F79 => texts::NAMES_F79,
            Dialect::F83 => texts::NAMES_F83,
            Dialect::Poly => texts::NAMES_POLY,
        }
    }

    /// What its text leaves out.
    pub fn left_out(self) -> &'static [LeftOut] {
        match self {
            Dialect::Fig => &texts::LEFT_OUT_FIG,
            Dialect::F79 => &texts::LEFT_OUT_F79,
            Dialect::F83 => &texts::LEFT_OUT_F83,
            Dialect::Poly => &texts::LEFT_OUT_POLY,
        }
    }

    /// The words of its glossary.
    pub fn glossary(self) -> &'static [u8] {
        match self {
            Dialect::Fig => glossaries::FIG,
            Dialect::F79 => glossaries::F79,
            Dialect::F83 => glossaries::F83,
            Dialect::Poly => glossaries::POLY,
        }
    }
}

/// Some of the dialects.
#[derive(Clone, Copy, Debug, PartialEq, Eq, Drop)]
pub struct Dialects {
    pub fig: bool,
    pub f79: bool,
    pub f83: bool,
    pub poly: bool,
}

pub const FIG: Dialects = Dialects {
    fig: true,
    f79: false,
    f83: false,
    poly: false,
};

pub const F79: Dialects = Dialects {
    fig: false,
    f79: true,
    f83: false,
    poly: false,
};

pub const F83: Dialects = Dialects {
    fig: false,
    f79: false,
    f83: true,
    poly: false,
};

pub const POLY: Dialects = Dialects {
    fig: false,
    f79: false,
    f83: false,
    poly: true,
};

pub const FIG_F79: Dialects = Dialects {
    fig: true,
    f79: true,
    f83: false,
    poly: false,
};

pub const F79_POLY: Dialects = Dialects {
    fig: false,
    f79: true,
    f83: false,
    poly: true,
};

pub const F83_POLY: Dialects = Dialects {
    fig: false,
    f79: false,
    f83: true,
    poly: true,
};
/// Those that came after fig-FORTH.
pub const LATER: Dialects = Dialects {
    fig: false,
    f79: true,
    f83: true,
    poly: true,
};
/// Those that aren't of the Standard of 1983.
pub const BEFORE_83: Dialects = Dialects {
    fig: true,
    f79: true,
    f83: false,
    poly: true,
};

impl Dialects {
    /// Whether this one is among them.
    pub fn has(self, dialect: Dialect) -> bool {
        match dialect {
            Dialect::Fig => self.fig,
            Dialect::F79 => self.f79,
            Dialect::F83 => self.f83,
            Dialect::Poly => self.poly,
        }
    }

    /// Those that a test takes.
    pub fn such<F: Fn(Dialect) -> bool>(test: F) -> Dialects
        requires { F.IsAlwaysCallable test }
    {
        Dialects {
            fig: test(Dialect::Fig),
            f79: test(Dialect::F79),
            f83: test(Dialect::F83),
            poly: test(Dialect::Poly),
        }
    }

    /// Whether all are among them.
    pub fn is_all(self) -> bool {
        self.fig && self.f79 && self.f83 && self.poly
    }

    /// Whether one of them is among the others.
    pub fn meets(self, others: Dialects) -> bool {
        self.fig && others.fig
            || self.f79 && others.f79
            || self.f83 && others.f83
            || self.poly && others.poly
    }

    /// Whether all of them are among the others.
    pub fn is_within(self, others: Dialects) -> bool {
        (!self.fig || others.fig)
            && (!self.f79 || others.f79)
            && (!self.f83 || others.f83)
            && (!self.poly || others.poly)
    }

    /// Whether it is one alone.
    pub fn is_one(self) -> bool {
        self == FIG || self == F79 || self == F83 || self == POLY
    }
}

/// A system that had more words than the dialect that it goes back to.
#[derive(Clone, Copy, Debug, PartialEq, Eq, Drop)]
pub enum System {
    Mms,
    Mvp,
    Hs,
    Volks,
    Rsc,
}

/// All of them, in the order in which they are listed.
pub static SYSTEMS: [System; 5] = [
    System::Mms,
    System::Mvp,
    System::Hs,
    System::Volks,
    System::Rsc,
];

impl System {
    /// What it is called.
    pub fn name(self) -> &'static [u8] {
        match self {
            System::Mms => b"MMSFORTH",
            System::Mvp => b"MVP-FORTH",
            System::Hs => b"HS/FORTH",
            System::Volks => b"volksFORTH",
            System::Rsc => b"RSC-FORTH",
        }
    }

    /// The name of its text.
    pub fn key(self) -> &'static [u8] {
        match self {
            System::Mms => b"mms",
            System::Mvp => b"mvp",
            System::Hs => b"hs",
            System::Volks => b"volks",
            System::Rsc => b"rsc",
        }
    }

    /// The dialect that it goes back to.
    pub fn dialect(self) -> Dialect {
        match self {
            System::Mms => Dialect::F79,
            System::Mvp => Dialect::F79,
            System::Hs => Dialect::F79,
            System::Volks => Dialect::F83,
            System::Rsc => Dialect::Fig,
        }
    }

    /// The words of its glossary.
    pub fn glossary(self) -> &'static [u8] {
        match self {
            System::Mms => glossaries::MMS,
            System::Mvp => glossaries::MVP,
            System::Hs => glossaries::HS,
            System::Volks => glossaries::VOLKS,
            System::Rsc => glossaries::RSC,
        }
    }

    /// The numbers of its screens, in the order of its text.
    pub fn screens(self) -> &'static [u16] {
        match self {
            System::Mms => &texts::SCREENS_MMS,
            System::Mvp => &texts::SCREENS_MVP,
            System::Hs => &texts::SCREENS_HS,
            System::Volks => &texts::SCREENS_VOLKS,
            System::Rsc => &texts::SCREENS_RSC,
        }
    }

    /// What its text leaves out.
    pub fn left_out(self) -> &'static [LeftOut] {
        match self {
            System::Mms => &texts::LEFT_OUT_MMS,
            System::Mvp => &texts::LEFT_OUT_MVP,
            System::Hs => &texts::LEFT_OUT_HS,
            System::Volks => &texts::LEFT_OUT_VOLKS,
            System::Rsc => &texts::LEFT_OUT_RSC,
        }
    }
}
