#![tactic(auto)]

ghost use Rattle.laws.specs.Devices.{Devices};
ghost use Rattle.laws.specs.Examples.{Examples};
ghost use Rattle.laws.specs.Places.{PlacesAreFirst};
ghost use Rattle.laws.specs.Roundtrip.{OperandsRead, OperandsWritten, LinesRead, LinesWritten};
ghost use Rattle.laws.specs.Accepted.{WrittenAccepted, AcceptedWritten, TextReads, ReadWrites, OneProgram};
ghost use Rattle.laws.specs.Temporaries.{TemporariesFit, OperationsFew};
ghost use Rattle.laws.specs.Longest.{LongestTape};
ghost use Rattle.laws.specs.Firsts.{MentionsWritten, LettersFirst, ConstantsFirst, InstructionsFirst};

// The worked examples hold of the definitions.
pub fn examples_stand()
    ensures texts { Examples }
    ensures devices { Devices }
{}

// What is written is read as what it was, and nothing else is read.
pub fn reading_undoes_writing()
    ensures operands { OperandsRead }
    ensures operands_back { OperandsWritten }
    ensures lines { LinesRead }
    ensures lines_back { LinesWritten }
{}

// The texts that are accepted are those that write a well-formed program, each one program.
pub fn acceptance()
    ensures written_accepted { WrittenAccepted }
    ensures accepted_written { AcceptedWritten }
    ensures text_reads { TextReads }
    ensures read_writes { ReadWrites }
    ensures one_program { OneProgram }
{}

// A line of at most 80 bytes is too short for a temporary past 15 and for more than 19 operations.
pub fn temporaries_suffice()
    ensures fit { TemporariesFit }
    ensures few { OperationsFew }
{}

// The bytes before the place of a refusal begin some line; with what stands at the place they begin none.
pub fn places_are_first()
    ensures { PlacesAreFirst }
{}

// A buffer of 491 words holds every tape.
pub fn tapes_are_short()
    ensures { LongestTape }
{}

// A refusal that is judged after all lines names the first letter, constant or line that breaks its rule, where it is written.
pub fn firsts_are_named()
    ensures mentions { MentionsWritten }
    ensures letters { LettersFirst }
    ensures constants { ConstantsFirst }
    ensures instructions { InstructionsFirst }
{}
