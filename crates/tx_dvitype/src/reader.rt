//! The reader of DVI files (the DVI standard; TeX: The Program, sections 583 to 591): what `assemble` writes is read back, and
//! so is each file of the same commands.
ghost use Rattle.std.specs.Prelude.{◌≡◌, ◌+◌, ◌*◌, ◌%◌, ◌≤◌, ◌∷◌, ◌++◌, List, length, Ok, IfOk, IfErr, OnOk};
ghost use Rattle.tx_dvi.specs.Dvi.{format_number};
ghost use Rattle.tx_dvitype.specs.Files as spec;
ghost use Rattle.tx_dvitype.specs.Files.{IsCause};
ghost use Rattle.tx_dvitype.specs.Grammar.{IsDviFile, IsNoFile};
ghost use Rattle.tx_dvitype.specs.Partial.{gone};
ghost use Rattle.tx_dvitype.specs.declared.reader.ReadPage.{ReadPage};

use crate::error::{DviError, DviRule};
use crate::page_reader::{Gone, PageReader};
use byteorder::{BigEndian, ByteOrder};
use std::alloc::{AllocError, Global};
use std::mem;
use tx_bytes::Bytes;
use tx_dvi::{Placed, opcode_of, two_bytes, units, unsigned_bytes};
use tx_list::Items;

const BOP: u8 = 139;

const EOP: u8 = 140;

const FNT_DEF1: u8 = 243;

const POST: u8 = 248;

const POST_POST: u8 = 249;

const FORMAT_NUMBER: u8 = 2;

const FILLER: u8 = 223;

/// pre, the number of the format, 25400000 and 473628672, and the high bytes of \mag, which is at most 32768.
const PREAMBLE: [u8; 12] = [247, 2, 1, 131, 146, 192, 28, 59, 0, 0, 0, 0];

/// A page of a DVI file: its ten numbers, and what is met on it, in its order, where characters have no width.
#[derive(Drop)]
pub struct ReadPage {
    pub counts: [i32; 10],
    pub placed: Items<Placed>,
}

/// The reader of a DVI file.
#[derive(Drop)]
pub struct Reader {
    /// What the bytes that come next belong to.
    element: DviRule,
    mag: u16,
    /// Where the last bop stands, as four bytes tell it; four times 255 before the first.
    pointer: [u8; 4],
    /// The numbers of the page that is being read.
    counts: [i32; 10],
    /// That page; it also has the first bytes of what isn't whole.
    page: PageReader,
    /// The bytes of the definitions of all fonts.
    definitions: Items<Bytes>,
    pages: Items<ReadPage>,
    /// What must stand in the postamble, or behind it.
    expected: Bytes,
}

/// Whether a byte is the one that stands at a place of these.
fn stands_at(bytes: &[u8], place: usize, byte: u8) -> bool
    ensures { result ≡ spec.stands_at bytes.now place byte }
{
    place < bytes.len() && byte == bytes[place]
}

/// Whether \mag may be this.
fn is_mag(mag: u16) -> bool
    ensures { result ≡ spec.is_mag mag }
{
    1 <= mag && mag <= 32768
}

/// \mag by its two low bytes.
fn mag_of(high: u8, low: u8) -> u16
    ensures { result ≡ 256 * high + low }
{
    256 * u16::from(high) + u16::from(low)
}

/// \mag in a preamble.
fn mag_in(bytes: &[u8]) -> u16
    requires { 14 ≤ length bytes.now }
    ensures { result ≡ spec.mag_in bytes.now }
{
    mag_of(bytes[12], bytes[13])
}

/// Whether a preamble may begin with some bytes and this one.
fn may_begin_preamble(begun: &[u8], byte: u8) -> bool
    ensures { result ≡ spec.may_begin_preamble begun.now byte }
{
    if begun.len() < 12 {
        stands_at(&PREAMBLE, begun.len(), byte)
    } else if begun.len() == 12 {
        byte <= 128
    } else if begun.len() == 13 {
        is_mag(mag_of(begun[12], byte))
    } else {
        true
    }
}

/// Whether a preamble is whole.
fn is_preamble(bytes: &[u8]) -> bool
    ensures { result ≡ spec.is_preamble bytes.now }
{
    14 < bytes.len() && bytes.len() == 15 + usize::from(bytes[14])
}

/// A number of bop.
fn count_at(bytes: &[u8], place: usize) -> i32
    requires { place + 4 ≤ length bytes.now }
    ensures { result ≡ spec.count_at place bytes.now }
{
    BigEndian::read_i32(&bytes[place..])
}

/// The ten numbers of bop.
#[tactic(auto, unfolding(crate::specs::Files::counts_in))]
fn counts_in(bytes: &[u8]) -> [i32; 10]
    requires { length bytes.now ≡ 45 }
    ensures { result ≡ spec.counts_in bytes.now }
{
    [
        count_at(bytes, 1),
        count_at(bytes, 5),
        count_at(bytes, 9),
        count_at(bytes, 13),
        count_at(bytes, 17),
        count_at(bytes, 21),
        count_at(bytes, 25),
        count_at(bytes, 29),
        count_at(bytes, 33),
        count_at(bytes, 37),
    ]
}

/// A place as four bytes tell it.
fn place_bytes(place: usize) -> [u8; 4]
    ensures { result ≡ spec.place_bytes place }
{
    unsigned_bytes((place % 4_294_967_296) as u32)
}

/// The number of the font that a definition's bytes define.
fn number_in(definition: &[u8]) -> u8
    ensures { result ≡ spec.number_in definition.now }
{
    match definition {
        [_, number, ..] => *number,
        [_] => 0,
        [] => 0,
    }
}

/// Appends the definitions that have this number.
fn append_numbered(file: &mut Bytes, definitions: &[Bytes], number: u8) -> Result<(), AllocError>
    ensures { OnOk result (file.new ≡ file.old ++ spec.all_bytes (spec.numbered_as number definitions.now)) }
{
    for definition in definitions {
        if number_in(definition.as_slice()) == number {
            file.append(definition.as_slice())?;
        }
    }
    Ok(())
}

/// Appends definitions, from the last number to the first.
fn append_again(file: &mut Bytes, definitions: &[Bytes]) -> Result<(), AllocError>
    ensures { OnOk result (file.new ≡ file.old ++ spec.again_below 256 definitions.now) }
{
    let mut below: u16 = 256;
    while below > 0 {
        below -= 1;
        append_numbered(file, definitions, below as u8)?;
    }
    Ok(())
}

/// Appends what fills up a file of so many bytes.
fn append_fillers(file: &mut Bytes, size: usize) -> Result<(), AllocError>
    ensures { OnOk result (file.new ≡ file.old ++ spec.fillers size) }
{
    let count = 4 + (4 - size % 4) % 4;
    file.append(&[FILLER; 7][..count])
}

/// Appends what stands behind post_post, where post stands at `start` and the last byte before post_post at `place`.
fn append_ending(file: &mut Bytes, place: usize, start: usize) -> Result<(), AllocError>
    ensures { OnOk result
        (file.new ≡ file.old ++ (spec.place_bytes start ++ format_number ∷ spec.fillers (place % 4 + 7))) }
{
    file.append(&place_bytes(start))?;
    file.push(FORMAT_NUMBER)?;
    append_fillers(file, place % 4 + 7)
}

/// What stands behind a postamble of so many bytes, the last of which has this place.
fn ending(alloc: Global, place: usize, size: usize) -> Result<Bytes, AllocError>
    ensures { IfOk result (λ bytes. bytes ≡ spec.ending place size) }
{
    let mut bytes = Bytes::from_slice(alloc, &[POST_POST])?;
    append_ending(
        &mut bytes,
        place,
        place.saturating_sub(size.saturating_sub(1)),
    )?;
    Ok(bytes)
}

impl Reader {
    /// Before the first byte.
    fn new(alloc: Global) -> Reader
        ensures { result ≡ spec.at_start }
    {
        Reader {
            element: DviRule::Preamble,
            mag: 0,
            pointer: [255; 4],
            counts: [0; 10],
            page: PageReader::new(alloc),
            definitions: Items::new(alloc),
            pages: Items::new(alloc),
            expected: Bytes::new(alloc),
        }
    }

    /// A byte of the preamble.
    #[tactic(auto, unfolding(crate::specs::Files::preamble_taken))]
    fn take_preamble(&mut self, alloc: Global, byte: u8) -> Result<bool, AllocError>
        ensures { IfOk result (λ goes. gone goes self.new ≡ spec.preamble_taken self.old byte) }
    {
        if !may_begin_preamble(self.page.begun(), byte) {
            return Ok(false);
        }
        self.page.begin(byte)?;
        if is_preamble(self.page.begun()) {
            self.mag = mag_in(self.page.begun());
            self.page.forget(alloc);
            self.element = DviRule::Page;
        }
        Ok(true)
    }

    /// Whether a page may begin with the bytes that are there and this one.
    fn may_begin_page(&self, byte: u8) -> bool
        ensures { result ≡ spec.may_begin_page self.now byte }
    {
        let place = self.page.begun().len();
        if place == 0 {
            byte == BOP
        } else if place <= 40 {
            true
        } else {
            stands_at(&self.pointer, place - 41, byte)
        }
    }

    /// Whether post may stand here.
    fn may_begin_post(&self, byte: u8) -> bool
        ensures { result ≡ spec.may_begin_post self.now byte }
    {
        self.page.begun().len() == 0 && (byte == POST && 0 < self.pages.len())
    }

    /// Appends what must stand in the postamble behind post.
    fn append_postamble(&self, bytes: &mut Bytes) -> Result<(), AllocError>
        ensures { OnOk result (bytes.new ≡ bytes.old ++ spec.behind_post self.now) }
    {
        bytes.append(&self.pointer)?;
        bytes.append(&units(self.mag))?;
        bytes.append(&[0; 10])?;
        bytes.append(&two_bytes((self.pages.len() % 65536) as u16))?;
        append_again(bytes, self.definitions.as_slice())
    }

    /// What must stand in the postamble.
    fn postamble(&self, alloc: Global) -> Result<Bytes, AllocError>
        ensures { IfOk result (λ bytes. bytes ≡ spec.postamble self.now) }
    {
        let mut bytes = Bytes::from_slice(alloc, &[POST])?;
        self.append_postamble(&mut bytes)?;
        Ok(bytes)
    }

    /// post is taken.
    fn begin_post(&mut self, alloc: Global) -> Result<(), AllocError>
        ensures { OnOk result (self.new ≡ spec.at_post self.old) }
    {
        self.expected = self.postamble(alloc)?;
        self.page.begin(POST)?;
        self.element = DviRule::Postamble;
        Ok(())
    }

    /// bop is whole, whose last byte has this place.
    fn begin_page(&mut self, alloc: Global, place: usize)
        requires { length self.old.page.begun ≡ 45 }
        ensures { self.new ≡ spec.behind_bop place self.old }
    {
        self.pointer = place_bytes(place.saturating_sub(44));
        self.counts = counts_in(self.page.begun());
        self.page.start(alloc);
        self.element = DviRule::Command;
    }

    /// A byte of bop, or post.
    #[tactic(auto, unfolding(crate::specs::Files::page_taken))]
    fn take_page(&mut self, alloc: Global, place: usize, byte: u8) -> Result<bool, AllocError>
        ensures { IfOk result (λ goes. gone goes self.new ≡ spec.page_taken place self.old byte) }
    {
        if self.may_begin_post(byte) {
            self.begin_post(alloc)?;
            return Ok(true);
        }
        if !self.may_begin_page(byte) {
            return Ok(false);
        }
        self.page.begin(byte)?;
        if self.page.begun().len() == 45 {
            self.begin_page(alloc, place);
        }
        Ok(true)
    }

    /// eop ends the page.
    fn end_page(&mut self, alloc: Global) -> Result<(), AllocError>
        ensures { OnOk result (self.new ≡ spec.behind_eop self.old) }
    {
        let placed = self.page.take_met(alloc);
        self.pages.push(ReadPage {
            counts: self.counts,
            placed,
        })?;
        self.element = DviRule::Page;
        Ok(())
    }

    /// A byte of a command.
    fn take_within(&mut self, alloc: Global, byte: u8) -> Result<bool, AllocError>
        ensures { IfOk result (λ goes. gone goes self.new ≡ spec.within_taken self.old byte) }
    {
        match self.page.read(alloc, byte)? {
            Gone::Nowhere => Ok(false),
            Gone::Begun => Ok(true),
            Gone::Whole(command) => {
                if opcode_of(command.as_slice()) == FNT_DEF1 {
                    self.definitions.push(command)?;
                }
                Ok(true)
            }
        }
    }

    /// A byte of a command, or eop.
    #[tactic(auto, unfolding(crate::specs::Files::command_taken))]
    fn take_command(&mut self, alloc: Global, byte: u8) -> Result<bool, AllocError>
        ensures { IfOk result (λ goes. gone goes self.new ≡ spec.command_taken self.old byte) }
    {
        if self.page.begun().len() == 0 && byte == EOP {
            if !self.page.is_level() {
                return Ok(false);
            }
            self.end_page(alloc)?;
            return Ok(true);
        }
        self.take_within(alloc, byte)
    }

    /// The postamble is whole, whose last byte has this place.
    fn end_postamble(&mut self, alloc: Global, place: usize) -> Result<(), AllocError>
        ensures { OnOk result (self.new ≡ spec.behind_postamble place self.old) }
    {
        self.expected = ending(alloc, place, self.expected.len())?;
        self.page.forget(alloc);
        self.element = DviRule::End;
        Ok(())
    }

    /// Whether the byte that comes next may be anything: one of those that tell the greatest sizes and depth.
    fn may_stand(&self) -> bool
        ensures { result ≡ spec.may_stand self.now }
    {
        let place = self.page.begun().len();
        17 <= place && place < 27
    }

    /// A byte of the postamble.
    #[tactic(auto, unfolding(crate::specs::Files::postamble_taken))]
    fn take_postamble(&mut self, alloc: Global, place: usize, byte: u8) -> Result<bool, AllocError>
        ensures { IfOk result (λ goes. gone goes self.new ≡ spec.postamble_taken place self.old byte) }
    {
        if !(self.may_stand()
            || stands_at(self.expected.as_slice(), self.page.begun().len(), byte))
        {
            return Ok(false);
        }
        self.page.begin(byte)?;
        if self.page.begun().len() == self.expected.len() {
            self.end_postamble(alloc, place)?;
        }
        Ok(true)
    }

    /// A byte behind the postamble.
    #[tactic(auto, unfolding(crate::specs::Files::end_taken))]
    fn take_end(&mut self, byte: u8) -> Result<bool, AllocError>
        ensures { IfOk result (λ goes. gone goes self.new ≡ spec.end_taken self.old byte) }
    {
        if !stands_at(self.expected.as_slice(), self.page.begun().len(), byte) {
            return Ok(false);
        }
        self.page.begin(byte)?;
        Ok(true)
    }

    /// The byte that has this place. Answers whether a file may have it there.
    #[tactic(auto, unfolding(crate::specs::Files::taken))]
    fn take(&mut self, alloc: Global, place: usize, byte: u8) -> Result<bool, AllocError>
        ensures { IfOk result (λ goes. gone goes self.new ≡ spec.taken place self.old byte) }
    {
        match self.element {
            DviRule::File => Ok(false),
            DviRule::Preamble => self.take_preamble(alloc, byte),
            DviRule::Page => self.take_page(alloc, place, byte),
            DviRule::Command => self.take_command(alloc, byte),
            DviRule::Postamble => self.take_postamble(alloc, place, byte),
            DviRule::End => self.take_end(byte),
        }
    }

    /// Whether nothing is left to come.
    fn is_done(&self) -> bool
        ensures { result ≡ spec.is_done self.now }
    {
        match self.element {
            DviRule::File => false,
            DviRule::Preamble => false,
            DviRule::Page => false,
            DviRule::Command => false,
            DviRule::Postamble => false,
            DviRule::End => self.page.begun().len() == self.expected.len(),
        }
    }

    /// All bytes of a file, the first of them at place 0.
    fn take_all(&mut self, alloc: Global, bytes: &[u8]) -> Result<(), DviError>
        ensures read { OnOk result (spec.rest_read 0 self.old bytes.now ≡ Ok self.new.pages) }
        ensures refused { IfErr result (IsCause (spec.rest_read 0 self.old bytes.now)) }
    {
        for (at, byte) in bytes.iter().enumerate() {
            let rule = self.element;
            if !self.take(alloc, at, *byte)? {
                return Err(DviError::BadDvi {
                    place: at as u64,
                    rule,
                });
            }
        }
        if !self.is_done() {
            return Err(DviError::BadDvi {
                place: bytes.len() as u64,
                rule: self.element,
            });
        }
        Ok(())
    }

    /// The pages that are read of the bytes of a file, which are taken out. The reader stands before the first of them.
    fn take_pages(&mut self, alloc: Global, bytes: &[u8]) -> Result<Items<ReadPage>, DviError>
        ensures read { IfOk result (λ pages. spec.rest_read 0 self.old bytes.now ≡ Ok pages) }
        ensures refused { IfErr result (IsCause (spec.rest_read 0 self.old bytes.now)) }
    {
        self.take_all(alloc, bytes)?;
        Ok(mem::replace(&mut self.pages, Items::new(alloc)))
    }

    /// The pages of a DVI file, in its order.
    ///
    /// `BadDvi` comes exactly where the bytes are no such file. Its place is how many of them begin one, and its rule that of
    /// the element in which the next byte of every file that begins so stands.
    pub fn read(alloc: Global, bytes: &[u8]) -> Result<Items<ReadPage>, DviError>
        ensures read { IfOk result (λ pages. spec.dvi_file bytes.now ≡ Ok pages) }
        ensures refused { IfErr result (IsCause (spec.dvi_file bytes.now)) }
        ensures file { IfOk result (λ pages. IsDviFile bytes.now pages) }
        ensures only { IfOk result (λ pages. (others : List ReadPage) → IsDviFile bytes.now others → pages ≡ others) }
        ensures none { IfErr result (λ e. IsNoFile bytes.now e) }
    {
        let mut reader = Reader::new(alloc);
        reader.take_pages(alloc, bytes)
    }
}
