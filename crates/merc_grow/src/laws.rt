//! What is true of the modules that are grown.
ghost use Rattle.merc_grow.specs.GrownLaws.{GrownFits, GrownIsAscii};

/// A module that is grown has no more bytes than a file may have, and its text is ASCII.
pub fn grown_modules_are_files()
    ensures fits { GrownFits }
    ensures ascii { GrownIsAscii }
{}
