// Limits of what operations make.
ghost use Rattle.std.specs.Prelude.{◌≡◌};
ghost use Rattle.su_op.specs.Limits.{largest_file};

use su_bytes::Format;

/// The most bytes of one write.
pub const LARGEST_WRITE: usize = 65_536;

/// Returns the most bytes that a change in that format may give a file.
pub fn largest_file(format: Format) -> u32
    ensures { result ≡ largest_file format }
{
    match format {
        Format::V1 => 1_048_576,
        Format::V2 | Format::V3 | Format::V4 => 16_777_216,
    }
}

/// The most names of a file.
pub const MOST_LINKS: u8 = 255;
