/// A program header: what it is for, where its bytes stand in the file, its address, and its sizes in the file and in memory.
#[derive(Clone, Copy)]
pub struct Part {
    /// What it is for (ELF p_type): 1 is to be loaded.
    pub kind: u32,
    /// Where its bytes begin in the file (p_offset).
    pub offset: u32,
    /// Where they begin in memory (p_vaddr).
    pub address: u32,
    /// How many bytes it has in the file (p_filesz).
    pub filed: u32,
    /// How many bytes it has in memory (p_memsz).
    pub sized: u32,
}
