ghost use Rattle.std.specs.Prelude.{◌+◌, ◌^◌, ◌<◌, length};

pub mod methods;

/// A reader over a lent text, which hands out its lines one after another.
#[derive(Drop)]
pub struct Reader<'a> {
    // what has not been handed out yet
    rest: &'a [u8],
    // the number of the line handed out last, 0 before the first; counted here, since next_line answers it with the line
    line: usize,
    ghost room: { line + length rest.now < 2 ^ 64 },
}
