// Buffers as they are lent: filled before the call.

// What a lent byte, and an entry of a lent table, holds before the call.
pub(crate) const PATTERN: u8 = 0xee;

// The buffer's bytes: the front's, as many as there are and fit, and then the pattern.
pub(crate) fn fill(front: &[u8], pattern: u8, buffer: &mut [u8]) {
    let n = front.len().min(buffer.len());
    buffer[..n].copy_from_slice(&front[..n]);
    buffer[n..].fill(pattern);
}
