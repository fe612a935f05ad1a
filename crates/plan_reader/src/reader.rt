ghost use Rattle.std.specs.Prelude.{◌*◌, ◌≤◌, length};

mod methods;

// A file that is read from the front, and the place of the next bit. The file is so short that its places can
// be counted, and no place lies past its end.
#[derive(Drop)]
pub(crate) struct Reader<'a> {
    pub(crate) file: &'a [u8],
    place: u32,
    ghost short: { length file.now ≤ 65536 },
    ghost inside: { place ≤ 8 * length file.now },
}
