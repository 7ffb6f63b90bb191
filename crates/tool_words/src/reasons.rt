// Why something is refused, in words: a sentence for each case of a number of refusal (document 01, "Numbers of refusal"; document 02).

#[derive(Clone, Copy)]
pub enum Reason {
    NotStyle,
    HeaderCut,
    SectionPast,
    GroupPast,
    LastGroupPast,
    ChunkPast,
    FileOver,
    BodyOver,
    TagAgain,
    NoCasm,
    BadTag,
    EmptyGroup,
    Loose,
    BadSize,
    BadText,
    OutOfRange,
    ChannelAgain,
    StrayCntt,
    TooManyGroups,
    NameAgain,
    NoPart,
    NoChannel,
    BadNumber,
    NotByRoot,
    OtherEdition,
    ReadOnly,
}

impl Reason {
    // The sentence for a case.
    pub fn words(self) -> &'static [u8] {
        match self {
            Reason::NotStyle => {
                b"not a style file: it does not begin with MThd, six bytes and a whole MTrk"
            }
            Reason::HeaderCut => b"cut short: fewer than 8 bytes are left for a tag and a length",
            Reason::SectionPast => b"the section's length runs past the end of the file",
            Reason::GroupPast => b"the group's length runs past the next CSEG",
            Reason::LastGroupPast => b"the group's length runs past the end of the body",
            Reason::ChunkPast => b"the chunk's length runs past the end of its group",
            Reason::FileOver => b"the file is larger than 1,048,576 bytes",
            Reason::BodyOver => b"the CASM body is larger than 32,768 bytes",
            Reason::TagAgain => b"a second section with this tag",
            Reason::NoCasm => b"no CASM section",
            Reason::BadTag => b"a chunk with this tag may not stand here",
            Reason::EmptyGroup => b"a group with nothing in it",
            Reason::Loose => b"bytes that belong to no group",
            Reason::BadSize => b"the chunk's length is not the one its tag asks for",
            Reason::BadText => {
                b"the list of part names breaks a rule (1-255 bytes of 20H-7EH; names of 1-16 bytes, none twice)"
            }
            Reason::OutOfRange => b"a byte is out of its range",
            Reason::ChannelAgain => b"a second chunk of this kind for the same source channel",
            Reason::StrayCntt => {
                b"a second table (Cntt) for a channel that the group does not have"
            }
            Reason::TooManyGroups => b"more than 32 groups",
            Reason::NameAgain => b"a part name that an earlier group has already",
            Reason::NoPart => b"no such part",
            Reason::NoChannel => b"no such channel in this part",
            Reason::BadNumber => b"a number is out of its range",
            Reason::NotByRoot => b"this rule and table do not place notes by chord root",
            Reason::OtherEdition => b"a group of another edition than the groups before it",
            Reason::ReadOnly => b"the channel is locked (--override changes it all the same)",
        }
    }
}
