//! Which release this is. `release/make` writes this file, and the checksum of the sources leaves it out.

/// The version, the first digits of the checksum of the sources, and the toolchain that they are proved with.
pub(crate) const RELEASE: &str =
    "1.5.5 (sources 399ad1beed61, rattle-kit-13f logic dac8208d650f15bf)";
