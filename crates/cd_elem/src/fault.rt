// What is wrong with an input that is decoded.

/// What a decoder refuses. `at` counts the elements of the decoder's input before the refused ones.
#[derive(Clone, Copy, PartialEq, Eq)]
pub enum Fault {
    /// Bytes that are no well-formed UTF-8 (the Unicode Standard, Table 3-7). `at` is the first byte of the sequence.
    BadText { at: u64 },
    /// Characters that are no base16 (RFC 4648, section 8). `at` is the first character of the group of two.
    BadHex { at: u64 },
    /// Characters that are no base64 (RFC 4648, section 4). `at` is the first character of the group of four.
    BadBase64 { at: u64 },
}
