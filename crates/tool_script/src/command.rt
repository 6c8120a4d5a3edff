// The commands of a script, and how a line is read as one.
use crate::element_type::{ElementType, NumberType};
use crate::elements::{array_of, bytes_array_of, fill_value_of};
use crate::parse::{number_mistake, parse_bytes, parse_number, parse_numbers};
use crate::pieces::Pieces;
use crate::reason::Mistake;
use crate::selections::{next_word, parse_coordinates, parse_subset};
use crate::stop::Stop;
use std::alloc::Global;
use zarr_parts::{ArrayBytes, ArraySubset, ChunkShape, Coordinates, FillValue};
use zarrs_sharding::{ShardingIndexLocation, SubchunkWriteOrder};

/// What a shard is to be: the words of the command `shard`.
#[derive(Drop)]
pub struct Settings {
    pub shape: ChunkShape,
    pub subchunk_shape: ChunkShape,
    pub element_type: ElementType,
    pub fill_value: FillValue,
    pub location: ShardingIndexLocation,
}

/// What is done with a shard: with its object, or with its codec.
#[derive(Drop)]
pub enum Work {
    /// Encodes elements; the encoding is the object then.
    Encode(ArrayBytes<'static>),
    /// Takes these bytes as the object.
    Store(Vec<u8>),
    /// Compacts the object.
    Compact,
    /// Writes elements over the cells of a subset.
    Write(ArraySubset, ArrayBytes<'static>),
    /// Erases the object.
    Erase,
    /// Reads the cells of a subset.
    Read(ArraySubset),
    /// Reads the cells at coordinates.
    Cells(Coordinates),
    /// Encodes the object anew, with subchunks of this shape and the index at this place.
    Reshard(ChunkShape, ShardingIndexLocation),
    /// Takes another order in which subchunks are written.
    Order(SubchunkWriteOrder),
}

/// What is told of the object of a shard.
#[derive(Clone, Copy)]
pub enum Look {
    /// The numbers of its index.
    Index,
    /// The elements that it decodes to.
    Decode,
    /// Its bytes.
    Object,
}

/// A command of a script.
#[derive(Drop)]
pub enum Command<'a> {
    /// Takes another codec for other arrays; there is no object then.
    Shard(Settings),
    /// Takes the codec of this configuration, a text of JSON, for the same arrays; there is no object then.
    Configure(&'a str),
    /// Works on the shard.
    Work(Work),
    /// Tells of the object.
    Look(Look),
}

// A shape, whose numbers are positive.
fn parse_shape<'a>(alloc: Global, word: &'a [u8]) -> Result<ChunkShape, Stop<'a>> {
    let axes = parse_numbers(alloc, word, u64::MAX)?;
    ChunkShape::new(alloc, &axes)?.ok_or(Stop::malformed(Mistake::NoShape, word))
}

// A type of elements.
fn parse_element_type<'a>(word: &'a [u8]) -> Result<ElementType, Stop<'a>> {
    ElementType::parse(word).ok_or(Stop::malformed(Mistake::NoElementType, word))
}

// A number of a type.
fn parse_element<'a>(word: &'a [u8], number_type: NumberType) -> Result<u64, Stop<'a>> {
    let greatest = number_type.greatest();
    match parse_number(word, greatest) {
        Some(number) => Ok(number),
        None => Err(Stop::malformed(number_mistake(word, greatest), word)),
    }
}

// A fill value of a type.
fn parse_fill<'a>(
    alloc: Global,
    word: &'a [u8],
    element_type: ElementType,
) -> Result<FillValue, Stop<'a>> {
    match element_type {
        ElementType::Number(number_type) => {
            let number = parse_element(word, number_type)?;
            Ok(fill_value_of(alloc, number, number_type)?)
        }
        ElementType::Bytes => Ok(FillValue::new(parse_bytes(alloc, word)?)),
    }
}

// Where the index stands.
fn parse_location<'a>(word: &'a [u8]) -> Result<ShardingIndexLocation, Stop<'a>> {
    match word {
        b"start" => Ok(ShardingIndexLocation::Start),
        b"end" => Ok(ShardingIndexLocation::End),
        _ => Err(Stop::malformed(Mistake::NoLocation, word)),
    }
}

// The order in which subchunks are written.
fn parse_order<'a>(word: &'a [u8]) -> Result<SubchunkWriteOrder, Stop<'a>> {
    match word {
        b"c" => Ok(SubchunkWriteOrder::C),
        b"unordered" => Ok(SubchunkWriteOrder::Unordered),
        b"morton" => Ok(SubchunkWriteOrder::Morton),
        _ => Err(Stop::malformed(Mistake::NoOrder, word)),
    }
}

// The shape of a shard, and that of a subchunk.
fn parse_shapes<'a>(
    alloc: Global,
    words: &mut Pieces<'a>,
) -> Result<(ChunkShape, ChunkShape), Stop<'a>> {
    let shape = parse_shape(alloc, next_word(words)?)?;
    let subchunk_shape = parse_shape(alloc, next_word(words)?)?;
    Ok((shape, subchunk_shape))
}

// A type of elements, and a fill value of it.
fn parse_type_and_fill<'a>(
    alloc: Global,
    words: &mut Pieces<'a>,
) -> Result<(ElementType, FillValue), Stop<'a>> {
    let element_type = parse_element_type(next_word(words)?)?;
    let fill_value = parse_fill(alloc, next_word(words)?, element_type)?;
    Ok((element_type, fill_value))
}

// The words behind `shard`.
fn parse_settings<'a>(alloc: Global, words: &mut Pieces<'a>) -> Result<Settings, Stop<'a>> {
    let (shape, subchunk_shape) = parse_shapes(alloc, words)?;
    let (element_type, fill_value) = parse_type_and_fill(alloc, words)?;
    let location = parse_location(next_word(words)?)?;
    Ok(Settings {
        shape,
        subchunk_shape,
        element_type,
        fill_value,
        location,
    })
}

// The elements of a type that a word lists.
fn parse_elements<'a>(
    alloc: Global,
    word: &'a [u8],
    element_type: ElementType,
) -> Result<ArrayBytes<'static>, Stop<'a>> {
    match element_type {
        ElementType::Number(number_type) => {
            let numbers = parse_numbers(alloc, word, number_type.greatest())?;
            Ok(array_of(alloc, &numbers, number_type)?)
        }
        ElementType::Bytes => bytes_array_of(alloc, word),
    }
}

// The text behind `config`, to the end of the line.
fn parse_configuration<'a>(words: &mut Pieces<'a>) -> Result<Command<'a>, Stop<'a>> {
    let Some(text) = words.rest() else {
        return Err(Stop::malformed(Mistake::WordMissing, b""));
    };
    match str::from_utf8(text) {
        Ok(json) if json.is_ascii() => Ok(Command::Configure(json)),
        _ => Err(Stop::malformed(Mistake::NoAscii, text)),
    }
}

// The words behind `object`: none, or the bytes of another object.
fn parse_object<'a>(alloc: Global, words: &mut Pieces<'a>) -> Result<Command<'a>, Stop<'a>> {
    match words.next() {
        Some(word) => Ok(Command::Work(Work::Store(parse_bytes(alloc, word)?))),
        None => Ok(Command::Look(Look::Object)),
    }
}

// The words behind `encode`.
fn parse_encode<'a>(
    alloc: Global,
    words: &mut Pieces<'a>,
    element_type: ElementType,
) -> Result<Command<'a>, Stop<'a>> {
    let elements = parse_elements(alloc, next_word(words)?, element_type)?;
    Ok(Command::Work(Work::Encode(elements)))
}

// The words behind `write`.
fn parse_write<'a>(
    alloc: Global,
    words: &mut Pieces<'a>,
    element_type: ElementType,
) -> Result<Command<'a>, Stop<'a>> {
    let subset = parse_subset(alloc, next_word(words)?)?;
    let elements = parse_elements(alloc, next_word(words)?, element_type)?;
    Ok(Command::Work(Work::Write(subset, elements)))
}

// The word behind `read`.
fn parse_read<'a>(alloc: Global, words: &mut Pieces<'a>) -> Result<Command<'a>, Stop<'a>> {
    let subset = parse_subset(alloc, next_word(words)?)?;
    Ok(Command::Work(Work::Read(subset)))
}

// The words behind `cells`.
fn parse_cells<'a>(alloc: Global, words: &mut Pieces<'a>) -> Result<Command<'a>, Stop<'a>> {
    let coordinates = parse_coordinates(alloc, words)?;
    Ok(Command::Work(Work::Cells(coordinates)))
}

// The words behind `reshard`.
fn parse_reshard<'a>(alloc: Global, words: &mut Pieces<'a>) -> Result<Command<'a>, Stop<'a>> {
    let subchunk_shape = parse_shape(alloc, next_word(words)?)?;
    let location = parse_location(next_word(words)?)?;
    Ok(Command::Work(Work::Reshard(subchunk_shape, location)))
}

// A command that asks for a shard.
#[derive(Clone, Copy)]
enum Name {
    Config,
    Encode,
    Index,
    Decode,
    Object,
    Compact,
    Write,
    Erase,
    Read,
    Cells,
    Reshard,
    Order,
}

impl Name {
    // The command that a word names.
    fn of(word: &[u8]) -> Option<Name> {
        match word {
            b"config" => Some(Name::Config),
            b"encode" => Some(Name::Encode),
            b"index" => Some(Name::Index),
            b"decode" => Some(Name::Decode),
            b"object" => Some(Name::Object),
            b"compact" => Some(Name::Compact),
            b"write" => Some(Name::Write),
            b"erase" => Some(Name::Erase),
            b"read" => Some(Name::Read),
            b"cells" => Some(Name::Cells),
            b"reshard" => Some(Name::Reshard),
            b"order" => Some(Name::Order),
            _ => None,
        }
    }
}

// The command of this name, whose words are left, for a shard with elements of a type.
fn parse_for_shard<'a>(
    alloc: Global,
    name: Name,
    words: &mut Pieces<'a>,
    element_type: ElementType,
) -> Result<Command<'a>, Stop<'a>> {
    match name {
        Name::Config => parse_configuration(words),
        Name::Encode => parse_encode(alloc, words, element_type),
        Name::Index => Ok(Command::Look(Look::Index)),
        Name::Decode => Ok(Command::Look(Look::Decode)),
        Name::Object => parse_object(alloc, words),
        Name::Compact => Ok(Command::Work(Work::Compact)),
        Name::Write => parse_write(alloc, words, element_type),
        Name::Erase => Ok(Command::Work(Work::Erase)),
        Name::Read => parse_read(alloc, words),
        Name::Cells => parse_cells(alloc, words),
        Name::Reshard => parse_reshard(alloc, words),
        Name::Order => Ok(Command::Work(Work::Order(parse_order(next_word(words)?)?))),
    }
}

// The command of this first word, whose further words are left.
fn parse_named<'a>(
    alloc: Global,
    word: &'a [u8],
    words: &mut Pieces<'a>,
    element_type: Option<ElementType>,
) -> Result<Command<'a>, Stop<'a>> {
    if word == b"shard".as_slice() {
        return Ok(Command::Shard(parse_settings(alloc, words)?));
    }
    match (Name::of(word), element_type) {
        (Some(name), Some(element_type)) => parse_for_shard(alloc, name, words, element_type),
        (Some(_), None) => Err(Stop::malformed(Mistake::NoShard, word)),
        (None, _) => Err(Stop::malformed(Mistake::NoCommand, word)),
    }
}

// Tests that no word is left.
fn check_end<'a>(words: &mut Pieces<'a>) -> Result<(), Stop<'a>> {
    match words.next() {
        Some(b"") => Err(Stop::malformed(Mistake::SpaceTooMany, b"")),
        Some(word) => Err(Stop::malformed(Mistake::WordTooMany, word)),
        None => Ok(()),
    }
}

impl<'a> Command<'a> {
    /// The command that a line is, where the elements of the shard, if there is one, have a type. `Malformed` where
    /// the line is no command's, by its first mistake from the left; all commands but `shard` ask for a shard.
    pub fn parse(
        alloc: Global,
        line: &'a [u8],
        element_type: Option<ElementType>,
    ) -> Result<Self, Stop<'a>> {
        let mut words = Pieces::new(line, b' ');
        let name = next_word(&mut words)?;
        let command = parse_named(alloc, name, &mut words, element_type)?;
        check_end(&mut words)?;
        Ok(command)
    }
}
