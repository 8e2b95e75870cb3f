//! The example's two files, cut at every length, and with every other value in the place of each byte.
use crate::pairs::Trials;
use crate::source::{Files, Source};
use std::alloc::AllocError;

impl Trials {
    fn try_cuts(&mut self, files: Files<'_>, source: Source) -> Result<(), AllocError> {
        let whole = files.of(source);
        for length in 0..whole.len() {
            // Kept as a cast: no `From` leads from usize to u64.
            self.compare(length as u64, files.with(source, &whole[..length]))?;
        }
        Ok(())
    }

    /// Puts every other value in the place of one byte.
    fn try_values(
        &mut self,
        files: Files<'_>,
        source: Source,
        place: usize,
    ) -> Result<(), AllocError> {
        let mut bytes = Vec::from_slice(self.heap, files.of(source))?;
        for _ in 1..=255u8 {
            if let Some(byte) = bytes.get_mut(place) {
                *byte = byte.wrapping_add(1);
            }
            // Kept as a cast, as above.
            self.compare(place as u64, files.with(source, bytes.as_slice()))?;
        }
        Ok(())
    }

    fn try_bytes(&mut self, files: Files<'_>, source: Source) -> Result<(), AllocError> {
        // Kept as an index: what is damaged is the byte at this place, in a copy of the file.
        for place in 0..files.of(source).len() {
            self.try_values(files, source, place)?;
        }
        Ok(())
    }

    /// Damages the two files one after the other.
    pub fn try_damage(&mut self, files: Files<'_>) -> Result<(), AllocError> {
        for source in [Source::Cell, Source::Process] {
            self.try_cuts(files, source)?;
            self.try_bytes(files, source)?;
        }
        Ok(())
    }
}
