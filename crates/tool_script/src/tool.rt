// What a script works on: the codec of its last `shard` or `config`, and the object that it stored.
ghost use Rattle.std.specs.Prelude.{◌≡◌, None, IfOk, IfErr, IsSomeAnd, OnOk, OnErr};
ghost use Rattle.parts_errors.specs.Order.{RefusedBy};
ghost use Rattle.codec_traits.specs.Refusals.{RefusesUnserved};
ghost use Rattle.tool_script.specs.Shards.{codec_of, settings_spec, spec_of_shard, state_of, tool_state};
ghost use Rattle.tool_script.specs.Answers.{HasShortCells};
ghost use Rattle.tool_script.specs.declared.answer.Answer.TheVariants.{Done};
ghost use Rattle.tool_script.specs.declared.answer.Outcome.TheVariants.{Refused};
ghost use Rattle.tool_script.specs.declared.reason.Reason.{Reason};
ghost use Rattle.tool_script.specs.declared.stop.Stop.TheVariants.{Malformed};

use crate::answer::{Answer, Outcome};
use crate::codec::Codec;
use crate::command::{Command, Look, Settings, Work};
use crate::element_type::ElementType;
use crate::print::{write_answered, write_configured};
use crate::reason::Mistake;
use crate::shard::Shard;
use crate::stop::Stop;
use std::alloc::Global;
use std::io;
use std::io::Write;
use zarr_codecs::ArrayToBytesCodecTraits;
use zarr_parts::CodecError;

impl Shard {
    // Does a work on the shard. Where it is refused everything stays as it was.
    fn work(&mut self, alloc: Global, work: Work) -> Result<Answer<'static>, CodecError>
        ensures short { IfOk result HasShortCells }
        ensures kept { OnErr result (state_of self.new ≡ state_of self.old) }
    {
        match work {
            Work::Encode(elements) => {
                let len = self.encode(alloc, &elements)?;
                Ok(Answer::Stored(Some(len)))
            }
            Work::Store(bytes) => Ok(Answer::Stored(Some(self.store(bytes)))),
            Work::Compact => {
                let answer = self.compact(alloc)?;
                Ok(Answer::Compacted(answer))
            }
            Work::Write(subset, elements) => {
                self.write(alloc, &subset, &elements)?;
                match &self.object {
                    Some(object) => Ok(Answer::Stored(Some(object.len()))),
                    None => Ok(Answer::Stored(None)),
                }
            }
            Work::Erase => {
                self.erase(alloc)?;
                Ok(Answer::Stored(None))
            }
            Work::Reshard(subchunk_shape, location) => {
                let answer = self.reshard(alloc, subchunk_shape, location)?;
                Ok(Answer::Stored(answer))
            }
            Work::Order(order) => {
                self.set_order(order);
                Ok(Answer::Done)
            }
            Work::Read(subset) => {
                let cells = self.read(alloc, &subset)?;
                Ok(Answer::Cells(cells))
            }
            Work::Cells(coordinates) => {
                let cells = self.read(alloc, &coordinates)?;
                Ok(Answer::Cells(cells))
            }
        }
    }

    // Tells of the object, which stays.
    fn look(&self, alloc: Global, look: Look) -> Result<Answer<'_>, CodecError>
        ensures short { IfOk result HasShortCells }
    {
        match look {
            Look::Index => match self.index(alloc)? {
                Some(numbers) => Ok(Answer::Index(numbers)),
                None => Ok(Answer::NoObject),
            },
            Look::Decode => match self.decode(alloc)? {
                Some(cells) => Ok(Answer::Cells(cells)),
                None => Ok(Answer::NoObject),
            },
            Look::Object => match &self.object {
                Some(object) => Ok(Answer::Object(object)),
                None => Ok(Answer::NoObject),
            },
        }
    }

    // Does a work on the shard, and writes the answer; tells whether it was refused, and then everything stays.
    fn run_work<W: Write>(&mut self, alloc: Global, work: Work, out: &mut W) -> io::Result<Outcome>
        ensures { IfOk result (λ outcome. outcome ≡ Refused → state_of self.new ≡ state_of self.old) }
    {
        let worked = self.work(alloc, work);
        write_answered(out, &worked)
    }

    // Takes another codec, and writes the answer; tells whether it was refused, and then everything stays.
    fn run_configure<W: Write>(
        &mut self,
        alloc: Global,
        text: &str,
        out: &mut W,
    ) -> io::Result<Outcome>
        ensures { IfOk result (λ outcome. outcome ≡ Refused → state_of self.new ≡ state_of self.old) }
    {
        let configured = self.configure(alloc, text);
        write_configured(out, &configured)
    }

    // Tells of the object, and writes the answer; tells whether it was refused.
    fn run_look<W: Write>(&self, alloc: Global, look: Look, out: &mut W) -> io::Result<Outcome> {
        let told = self.look(alloc, look);
        write_answered(out, &told)
    }
}

/// What a script works on.
#[derive(Drop)]
pub struct Tool {
    shard: Option<Shard>,
}

impl Tool {
    /// Nothing to work on yet.
    pub fn new() -> Self {
        Tool { shard: None }
    }

    // Takes another shard. Where it is refused everything stays as it was.
    fn open(&mut self, alloc: Global, settings: Settings) -> Result<Answer<'static>, CodecError>
        ensures done { IfOk result (λ answer. answer ≡ Done) }
        ensures ok { OnOk result (IsSomeAnd self.new.shard (λ shard. (shard.object ≡ None) × (shard.codec ≡ codec_of settings) × (spec_of_shard shard ≡ settings_spec settings))) }
        ensures kept { OnErr result (self.new ≡ self.old) }
        ensures refused { let codec = ⟦<Codec as ArrayToBytesCodecTraits>⟧ in let c = codec_of settings in let g = settings_spec settings in
            IfErr result (RefusedBy (RefusesUnserved (codec.meaning c g))) }
    {
        self.shard = Some(Shard::new(alloc, settings)?);
        Ok(Answer::Done)
    }

    // The type of the elements, where there is a shard.
    fn element_type(&self) -> Option<ElementType> {
        match &self.shard {
            Some(shard) => Some(shard.element_type),
            None => None,
        }
    }

    /// Runs a line that is not empty, and writes its answer; tells whether it was refused. A command that is refused and a
    /// line that is no command's change nothing. `Malformed` where the line is no command's, and nothing is written then;
    /// `Failed` where a write fails or a growth of the script's own is refused.
    pub fn run<'a, W: Write>(
        &mut self,
        alloc: Global,
        line: &'a [u8],
        out: &mut W,
    ) -> Result<Outcome, Stop<'a>>
        ensures refused { IfOk result (λ outcome. outcome ≡ Refused → tool_state self.new ≡ tool_state self.old) }
        ensures malformed { (reason : Reason) → result ≡ Err (Malformed reason) → tool_state self.new ≡ tool_state self.old }
    {
        match Command::parse(alloc, line, self.element_type())? {
            Command::Shard(settings) => {
                let opened = self.open(alloc, settings);
                let outcome = write_answered(out, &opened)?;
                Ok(outcome)
            }
            Command::Configure(text) => {
                let Some(shard) = &mut self.shard else {
                    return Err(Stop::malformed(Mistake::NoShard, line));
                };
                let outcome = shard.run_configure(alloc, text, out)?;
                Ok(outcome)
            }
            Command::Work(work) => {
                let Some(shard) = &mut self.shard else {
                    return Err(Stop::malformed(Mistake::NoShard, line));
                };
                let outcome = shard.run_work(alloc, work, out)?;
                Ok(outcome)
            }
            Command::Look(look) => {
                let Some(shard) = &self.shard else {
                    return Err(Stop::malformed(Mistake::NoShard, line));
                };
                let outcome = shard.run_look(alloc, look, out)?;
                Ok(outcome)
            }
        }
    }
}
