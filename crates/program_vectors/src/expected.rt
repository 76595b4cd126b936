// Published values that the proof itself works out: each check holds by what the function ensures.
pub fn run() {
    // RFC 1071, section 3: the worked example.
    let example = [0x00, 0x01, 0xf2, 0x03, 0xf4, 0xf5, 0xf6, 0xf7];
    let sum = number_checksum::add(0, &example, false);
    prove!(sum == 0xddf2);
    // A sum of FFFF has no complement but FFFF to send.
    let field = number_checksum::field(0xffff);
    prove!(field == 0xffff);
    let length = number_varint::encoded_length(300);
    prove!(length == 2);
}
