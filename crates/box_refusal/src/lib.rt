// Why a file, a picture or a request is turned down, and where.
#![tactic(auto)]

ghost use Rattle.std.specs.Prelude.{◌≡◌};
ghost use Rattle.box_refusal.specs.Told.{number, HasNumber};

// The causes of the table of refusals, in its order. A cause as a number is the table's.
#[derive(Clone, Copy, Debug, PartialEq, Eq)]
pub enum Cause {
    FileTooLong = 1,
    CodestreamTooEarly,
    LengthBelowHeader,
    PastTheFile,
    BeforeSignature,
    BeforeFileType,
    Signature,
    FileType,
    HeaderTooEarly,
    ChildHeader,
    ChildLength,
    NoImageHeader,
    ImageHeaderLength,
    ZeroSize,
    TooManyComponents,
    ColourTooShort,
    BitsLength,
    SecondList,
    PaletteSize,
    PaletteTooShort,
    MappingWithoutPalette,
    MappingTooShort,
    DefinitionTooShort,
    NoDefinitions,
    ChannelMisnamed,
    ChannelUndefined,
    MappingFails,
    NoSamples,
    OutsideItsList,
    DestinationTooShort,
    ComponentCount,
    Precision,
    EmptyPicture,
    TooLongToWrite,
}

impl Cause {
    // The number of a cause in the table.
    pub fn number(self) -> u32
        ensures { result ≡ number self }
    {
        self as u32
    }
}

// A number that no cause has.
#[derive(Clone, Copy, Debug, PartialEq, Eq)]
pub struct NoCause(pub u64);

impl TryFrom<u64> for Cause {
    type Error = NoCause;

    ghost try_from_gives = { HasNumber };

    fn try_from(number: u64) -> Result<Self, NoCause> {
        match number {
            1 => Ok(Cause::FileTooLong),
            2 => Ok(Cause::CodestreamTooEarly),
            3 => Ok(Cause::LengthBelowHeader),
            4 => Ok(Cause::PastTheFile),
            5 => Ok(Cause::BeforeSignature),
            6 => Ok(Cause::BeforeFileType),
            7 => Ok(Cause::Signature),
            8 => Ok(Cause::FileType),
            9 => Ok(Cause::HeaderTooEarly),
            10 => Ok(Cause::ChildHeader),
            11 => Ok(Cause::ChildLength),
            12 => Ok(Cause::NoImageHeader),
            13 => Ok(Cause::ImageHeaderLength),
            14 => Ok(Cause::ZeroSize),
            15 => Ok(Cause::TooManyComponents),
            16 => Ok(Cause::ColourTooShort),
            17 => Ok(Cause::BitsLength),
            18 => Ok(Cause::SecondList),
            19 => Ok(Cause::PaletteSize),
            20 => Ok(Cause::PaletteTooShort),
            21 => Ok(Cause::MappingWithoutPalette),
            22 => Ok(Cause::MappingTooShort),
            23 => Ok(Cause::DefinitionTooShort),
            24 => Ok(Cause::NoDefinitions),
            25 => Ok(Cause::ChannelMisnamed),
            26 => Ok(Cause::ChannelUndefined),
            27 => Ok(Cause::MappingFails),
            28 => Ok(Cause::NoSamples),
            29 => Ok(Cause::OutsideItsList),
            30 => Ok(Cause::DestinationTooShort),
            31 => Ok(Cause::ComponentCount),
            32 => Ok(Cause::Precision),
            33 => Ok(Cause::EmptyPicture),
            34 => Ok(Cause::TooLongToWrite),
            _ => Err(NoCause(number)),
        }
    }
}

// A cause, and its place: where a box starts in the file, an index, or a needed length.
#[derive(Clone, Copy, Debug, PartialEq, Eq)]
pub struct Refusal<P> {
    pub cause: Cause,
    pub place: P,
}

impl From<Refusal<u32>> for Refusal<u64> {
    ghost from_gives = { λ e r. r ≡ record { cause = e.cause; place = e.place } };

    fn from(e: Refusal<u32>) -> Self {
        Refusal {
            cause: e.cause,
            place: e.place as u64,
        }
    }
}
