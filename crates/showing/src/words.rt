// Numbers in words, as document 01's tables have them, and document 02.

// A failed instruction's; nothing where its class says all that there is to say.
pub fn failure(number: u64) -> &'static str {
    match number {
        21 => "unknown name, or operand count wrong",
        22 => "operand past the declared length",
        23 => "input of a wrong length or count",
        24 => "read-only mode",
        25 => "contract or sector root not found",
        26 => "span or size not possible",
        27 => "proof not possible",
        28 => "above the budget",
        40 => "too few free stage slots",
        41 => "disk too small",
        42 => "record does not fit",
        _ => "",
    }
}

// A refusal's.
pub fn refusal(number: u64) -> &'static str {
    match number {
        1 => "host not in order",
        2 => "an area or length not as stated",
        3 => "a program is open",
        4 => "no program open",
        5 => "id is the ReadOnly word",
        6 => "id already present",
        7 => "contract not found",
        8 => "no free place for a contract",
        9 => "bytes missing or left over, a flag above 1, or a price or their count not as stated",
        10 => "a count or the declared length above its limit",
        11 => "start price above budget",
        12 => "data passes the declared length",
        13 => "program not ended",
        14 => "agreed size or root differs",
        15 => "id is four bytes filled with zeros",
        _ => "which is no refusal's number",
    }
}
