//! The screens of a course, and the lessons in them.

use crate::bytes::{
    LINE, LINES, SCREEN, after, after_beginning, find, front, is_blank, number_of, trimmed_end,
};
use std::alloc::{AllocError, Global};

/// The checker of a lesson is so many screens after the pupils' screen.
pub const CHECKERS: u16 = 20;

/// How many screens of a file are looked at.
pub const MOST_SCREENS: u16 = 32768;

/// A lesson, by its title in line 0 of the pupils' screen.
#[derive(Clone, Copy)]
pub struct Lesson<'a> {
    pub number: u32,
    pub title: &'a [u8],
    pub screen: u16,
}

/// The bytes of a screen; `None` if the blocks end before its end.
pub fn screen_of(blocks: &[u8], number: u16) -> Option<&[u8]> {
    let start = usize::from(number) * SCREEN;
    blocks.get(start..start.saturating_add(SCREEN))
}

/// The bytes of a line of a screen, with the blanks at its end.
pub fn whole_line(screen: &[u8], line: usize) -> &[u8] {
    let start = line.saturating_mul(LINE);
    screen.get(start..start.saturating_add(LINE)).unwrap_or(b"")
}

/// A line of a screen, without the blanks at its end.
pub fn line_of(screen: &[u8], line: usize) -> &[u8] {
    trimmed_end(whole_line(screen, line))
}

/// Whether a screen has nothing but blanks.
pub fn is_blank_screen(screen: &[u8]) -> bool {
    screen.iter().all(|byte| is_blank(*byte))
}

/// The lines of a screen as a text, without the blanks at their ends.
pub fn text_of(alloc: Global, screen: &[u8]) -> Result<Vec<u8>, AllocError> {
    let mut text = Vec::new(alloc);
    for line in 0..LINES {
        text.extend_from_slice(line_of(screen, line))?;
        text.extend_from_slice(b"\n")?;
    }
    Ok(text)
}

/// The lesson whose title a line is, as `( Lesson 3: the stack )`.
fn lesson_of(line: &[u8], screen: u16) -> Option<Lesson<'_>> {
    let named = after_beginning(line, b"( Lesson ")?;
    let end = named.len().checked_sub(2)?;
    if !matches!(after(named, end), b" )") {
        return None;
    }
    let colon = find(named, b": ")?;
    let number = number_of(front(named, colon))?;
    let title = named.get(colon.saturating_add(2)..end)?;
    Some(Lesson {
        number,
        title,
        screen,
    })
}

/// Puts a lesson among those before it, in the order of their numbers; of two with the same number the first one counts.
fn put_lesson<'a>(lessons: &mut Vec<Lesson<'a>>, lesson: Lesson<'a>) -> Result<(), AllocError> {
    let place = lessons
        .iter()
        .position(|other| other.number >= lesson.number)
        .unwrap_or(lessons.len());
    if let Some(other) = lessons.get(place) {
        if other.number == lesson.number {
            return Ok(());
        }
    }
    match lessons.insert(place, lesson) {
        Ok(()) => Ok(()),
        Err(_) => Err(AllocError),
    }
}

/// The lessons of a course, in the order of their numbers: of two with the same number the first one counts. Screen 0 has none.
pub fn lessons_of(alloc: Global, blocks: &[u8]) -> Result<Vec<Lesson<'_>>, AllocError> {
    let mut found: Vec<Lesson<'_>> = Vec::new(alloc);
    for number in 1..MOST_SCREENS {
        let Some(screen) = screen_of(blocks, number) else {
            break;
        };
        if let Some(lesson) = lesson_of(line_of(screen, 0), number) {
            put_lesson(&mut found, lesson)?;
        }
    }
    Ok(found)
}
