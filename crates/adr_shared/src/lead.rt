//! Leads of texts, for keys that are texts.
ghost use Rattle.std.specs.Prelude.{◌≡◌, get_or};
ghost use Rattle.adr_shared.specs.Lead.{lead_of_text, LeadsFollowTexts};

/// The lead of a text of these bytes: the first eight as a big-endian number, with zeros where it is shorter.
pub fn text_lead(bytes: &[u8]) -> u64
    ensures { result ≡ lead_of_text bytes.now }
{
    u64::from_be_bytes([
        byte_at(bytes, 0),
        byte_at(bytes, 1),
        byte_at(bytes, 2),
        byte_at(bytes, 3),
        byte_at(bytes, 4),
        byte_at(bytes, 5),
        byte_at(bytes, 6),
        byte_at(bytes, 7),
    ])
}

// The byte at a place, zero past the end.
fn byte_at(bytes: &[u8], place: usize) -> u8
    ensures { result ≡ get_or bytes.now place 0 }
{
    if place < bytes.len() { bytes[place] } else { 0 }
}

/// The law of the leads of texts: of two texts whose leads differ, the one with the smaller lead is the smaller.
pub fn text_lead_laws()
    ensures { LeadsFollowTexts }
{}
