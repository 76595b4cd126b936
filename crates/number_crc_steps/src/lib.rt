#![tactic(auto)]

// The bits of CRC32c (Castagnoli), for the table and the code above. There is no code here.
