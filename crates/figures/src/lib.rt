// The sheet's figures, in the order of its lines (rule 11.3) and in their widths (rule 11.4).
// Quantification makes them and the sheet's text carries them; neither knows the other.
#![tactic(auto)]

#[derive(Clone, Copy)]
pub struct Figures {
    pub intervals: u64,
    pub devices: u64,
    pub counted: u64,
    pub replaced: u64,
    pub excluded: u64,
    pub methane_l: u64,
    pub destroyed_l: u64,
    pub uncombusted_l: u64,
    pub baseline_mg: u64,
    pub co2_mg: u64,
    pub uncombusted_mg: u64,
    pub fuel_mg: u64,
    pub reduction_mg: i64,
    pub tonnes: i64,
    pub credits: u64,
}
