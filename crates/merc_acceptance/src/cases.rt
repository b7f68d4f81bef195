//! A case with its texts written out.
ghost use Rattle.std.specs.Prelude.{◌≡◌, false, [], IfOk};

use crate::escapes::{Filling, expand, push_all};
use crate::fault::TableFault;
use crate::settings::Settings;
use merc_base::Text;
use std::alloc::Global;

/// What a call is given, and what is due.
#[derive(Drop)]
pub struct Case {
    /// The files, each a name and a text.
    pub files: Vec<(Text, Text)>,
    /// The words.
    pub words: Vec<Text>,
    /// The status that is due.
    pub status: u8,
    /// The text that is due.
    pub text: Text,
}

impl Case {
    /// The case with this text, and at this line where one is said.
    pub(crate) fn of(
        alloc: Global,
        settings: &Settings,
        text: &str,
        line: Option<u32>,
    ) -> Result<Case, TableFault> {
        let mut case = Case {
            files: Vec::new(alloc),
            words: Vec::new(alloc),
            status: 0,
            text: Text::new(alloc),
        };
        case.fill(alloc, settings, text, line)?;
        Ok(case)
    }

    fn fill(
        &mut self,
        alloc: Global,
        settings: &Settings,
        text: &str,
        line: Option<u32>,
    ) -> Result<(), TableFault> {
        let own = own_text(alloc, text)?;
        let number = line.unwrap_or(0).to_string(alloc)?;
        let mut filling = Filling::new(alloc, own.bytes(), number.as_bytes());
        self.take_settings(alloc, settings, &mut filling)?;
        check_used(&filling, line.is_some())
    }

    // Takes what the settings say, with what the case puts in.
    fn take_settings(
        &mut self,
        alloc: Global,
        settings: &Settings,
        filling: &mut Filling<'_>,
    ) -> Result<(), TableFault> {
        let Some((status, due)) = &settings.due else {
            return Err(TableFault::NothingDue);
        };
        self.status = *status;
        add_files(alloc, &settings.files, filling, &mut self.files)?;
        add_words(&settings.words, filling, &mut self.words)?;
        push_all(due.as_bytes(), filling, &mut self.text)
    }
}

// The text of a case, in which no other text stands.
fn own_text(alloc: Global, text: &str) -> Result<Text, TableFault> {
    let mut nothing = Filling::new(alloc, b"", b"");
    let own = expand(text, &mut nothing)?;
    if nothing.has_text || nothing.has_line {
        return Err(TableFault::WrongEscape);
    }
    Ok(own)
}

// Whether what the case puts in stands somewhere, and its line just where one is said.
fn check_used(filling: &Filling<'_>, is_line_said: bool) -> Result<(), TableFault>
    ensures line { IfOk result (λ _. filling.now.has_line ≡ is_line_said) }
    ensures text { IfOk result (λ _. filling.now.has_text ≡ false → filling.now.text.now ≡ []) }
{
    if filling.has_line != is_line_said {
        return Err(TableFault::WrongLine);
    }
    if !filling.has_text && !filling.text.is_empty() {
        return Err(TableFault::UnusedText);
    }
    Ok(())
}

fn add_files(
    alloc: Global,
    written: &[(String, String)],
    filling: &mut Filling<'_>,
    files: &mut Vec<(Text, Text)>,
) -> Result<(), TableFault> {
    for (name, content) in written {
        let name = Text::of(alloc, name.as_bytes())?;
        files.push((name, expand(content, filling)?))?;
    }
    Ok(())
}

fn add_words(
    written: &[String],
    filling: &mut Filling<'_>,
    words: &mut Vec<Text>,
) -> Result<(), TableFault> {
    for word in written {
        words.push(expand(word, filling)?)?;
    }
    Ok(())
}
