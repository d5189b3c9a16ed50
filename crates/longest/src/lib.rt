// The lengths that the header names for C: the longest chart and sheet, and the longest lists of a comparison and of reasons.
#![tactic(auto)]
