// walk.bin and numbers.bin judged, and the sizes of the three files.
ghost use Rattle.std.specs.Prelude.{◌≡◌, ◌+◌, ◌-◌, length, MatchResult};
ghost use Rattle.plpb.specs.Lists.{◌or◌};
ghost use Rattle.words.specs.Words.{num_at};
ghost use Rattle.folder.specs.Files.{may_measure, if_long, walk_fault, judged, read_walk, refusal_number, refusal_offset, reading};
ghost use Rattle.folder.specs.Files.{Refuses, numbers_refusal, too_long};

use settings::{Settings, settings_refusal};

// The most bytes that a file may have.
const LONGEST: usize = 65536;

// Why walk.bin or numbers.bin is turned away: the head or the body of the field ends too soon, another tag, another length, bytes behind the field from a
// place on, a setting out of its range by the number that calls from C are told of it, or a list that ends within a number.
#[derive(Clone, Copy)]
pub enum Refusal {
    Short,
    Tag,
    Length,
    Behind(usize),
    Setting(u32),
    Numbers,
}

// The same in two numbers, as a plan's refusal has them: offset 0 but for bytes behind the field.
impl From<Refusal> for verdict::Refusal {
    ghost from_gives = { λ refusal told. (told.number ≡ refusal_number refusal) × (told.offset ≡ refusal_offset refusal) };

    fn from(refusal: Refusal) -> verdict::Refusal {
        let (number, offset) = match refusal {
            Refusal::Short => (1, 0),
            Refusal::Tag => (2, 0),
            Refusal::Length => (3, 0),
            Refusal::Behind(offset) => (7, offset),
            Refusal::Numbers => (8, 0),
            Refusal::Setting(number) => (number, 0),
        };
        verdict::Refusal { number, offset }
    }
}

// The lengths that the field may have.
fn may_measure(size: usize) -> bool
    ensures { result ≡ may_measure size }
{
    size == 9 || size == 12
}

// "In a field: 1 for the head, 2, 3, 1 for the body". The length of a field that meets none.
fn field_size(file: &[u8]) -> Result<usize, Refusal>
    ensures { MatchResult result (λ n. (walk_fault file.now ≡ 0) × (n ≡ num_at 2 file.now 1))
        (Refuses (walk_fault file.now)) }
{
    if file.len() < 3 {
        return Err(Refusal::Short);
    }
    if file[0] != 16 {
        return Err(Refusal::Tag);
    }
    let size = words::read_size(file, 1);
    if !may_measure(size) {
        return Err(Refusal::Length);
    }
    if file.len() < 3 + size {
        return Err(Refusal::Short);
    }
    Ok(size)
}

fn judge_settings(s: Settings) -> Result<Settings, Refusal>
    ensures { reading result ≡ judged s }
{
    let fault = settings_refusal(s);
    if fault != 0 {
        return Err(Refusal::Setting(fault));
    }
    Ok(s)
}

// "length 9 means SKC": the heuristic and the chance that a file with a head of 3 bytes and a field of 12 has, and one with a field of 9 is given as 0.
fn choice_in(file: &[u8]) -> (u32, u32)
    ensures heuristic { result.0 ≡ if_long (length file.now - 3) (num_at 1 file.now 12) }
    ensures chance { result.1 ≡ if_long (length file.now - 3) (num_at 2 file.now 13) }
{
    if file.len() == 15 {
        (u32::from(file[12]), words::read_u16(file, 13))
    } else {
        (0, 0)
    }
}

// What walk.bin comes to.
pub fn judge_walk(file: &[u8]) -> Result<Settings, Refusal>
    ensures { reading result ≡ read_walk file.now }
{
    let size = field_size(file)?;
    if 3 + size < file.len() {
        return Err(Refusal::Behind(3 + size));
    }
    let (heuristic, chance) = choice_in(file);
    judge_settings(Settings {
        noise: words::read_u16(file, 3),
        tries: words::read_u16(file, 5),
        flips: words::read_u32(file, 7),
        mode: u32::from(file[11]),
        heuristic,
        chance,
    })
}

// "Numbers.bin: 8 when its length is no multiple of 4."
pub fn judge_numbers(file: &[u8]) -> Result<(), Refusal>
    ensures { MatchResult result (λ _. numbers_refusal file.now ≡ 0) (Refuses (numbers_refusal file.now)) }
{
    if file.len() % 4 == 0 {
        Ok(())
    } else {
        Err(Refusal::Numbers)
    }
}

// "Any of them above 65,536 bytes": `more` says that one of the files has bytes behind those given. The promise of all that is printed, in `respond` (`output
// more plan walk numbers`), has one flag and three lists of bytes, and it stays.
pub fn any_too_long(more: bool, plan: &[u8], walk: &[u8], numbers: &[u8]) -> bool
    ensures { result ≡ (more or too_long plan.now or too_long walk.now or too_long numbers.now) }
{
    more || LONGEST < plan.len() || LONGEST < walk.len() || LONGEST < numbers.len()
}
