ghost use Rattle.std.specs.Prelude.{◌≡◌, true, false, MatchResult};
ghost use Rattle.records.specs.declared.fault.Refusal.TheVariants.{BadName};
ghost use Rattle.records.specs.Items.{is_letter, is_name, item_of, item_as};

use crate::bytes::long;
use crate::fault::Refusal;
use crate::record::ItemRecord;
use model::item::Item;
use std::str::from_utf8_unchecked;

/// May this byte stand in a name: a to z, 0 to 9 or hyphen?
fn is_letter(byte: u8) -> bool
    ensures { result ≡ is_letter byte }
{
    matches!(byte, b'a'..=b'z' | b'0'..=b'9' | b'-')
}

/// May each of the bytes stand in a name?
fn is_name(bytes: &[u8]) -> bool
    ensures { result ≡ is_name bytes.now }
{
    bytes.iter().all(|byte| is_letter(*byte))
}

/// The bytes as text, if each may stand in a name.
fn text<'a>(bytes: &'a [u8]) -> Result<&'a str, Refusal>
    ensures { MatchResult result (λ s. (is_name bytes.now ≡ true) × (s.now ≡ bytes.now)) (λ e. (is_name bytes.now ≡ false) × (e ≡ BadName)) }
{
    if is_name(bytes) {
        Ok(unsafe { from_utf8_unchecked(bytes) })
    } else {
        Err(Refusal::BadName)
    }
}

/// The item that a body of 27 to 42 bytes tells of: eleven fields, then its name.
pub(crate) fn read_item<'a>(body: &'a [u8]) -> Result<ItemRecord<'a>, Refusal>
    ensures { item_as result ≡ item_of body.now }
{
    // Asked before the parts are read; there is no error to hand on.
    if body.len() < 27 || body.len() > 42 {
        return Err(Refusal::WrongLength);
    }
    let [class, station, mark, priority, queue, size, ..] = body else {
        return Err(Refusal::WrongLength);
    };
    let item = Item {
        class: *class,
        station: *station,
        mark: *mark,
        priority: *priority,
        queue: *queue,
        size: *size,
        period: long(body, 6),
        duration: long(body, 10),
        held: long(body, 14),
        offset: long(body, 18),
        deadline: long(body, 22),
    };
    let name = text(&body[26..])?;
    Ok(ItemRecord { item, name })
}
